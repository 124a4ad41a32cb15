//! Events.
use crate::channel::Channel;
use resin_bytes::Bytes;
use resin_lstr::LText;

/// Something that a write or a filter did. Writes that leave are numbered from 1 in each request; events on other channels have the write
/// number 0. A policy and a filter are told by their object numbers, a class by its declared name.
#[derive(Drop)]
pub enum Event {
    /// A policy that the data carries was asked in a write and returned.
    Passed {
        write: u64,
        policy: u32,
    },
    /// The data of a write went out, with the labels that it carried.
    Sent {
        write: u64,
        channel: Channel,
        text: LText,
    },
    /// A policy threw an exception of the class `by` in a write. It was carried by the bytes from `from` to `to`, the end not included.
    Denied {
        write: u64,
        channel: Channel,
        policy: u32,
        class: Bytes,
        from: u64,
        to: u64,
        by: Bytes,
    },
    /// A filter threw an exception of the class `by`, when it was given a text of `len` bytes. A function's filter has the length 0.
    FilterDenied {
        write: u64,
        channel: Channel,
        filter: u32,
        class: Bytes,
        len: u64,
        by: Bytes,
    },
}
