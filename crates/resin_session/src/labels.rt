//! The labels of the bytes of a text.
ghost use Rattle.std.specs.Prelude.{◌≡◌, option_map};
ghost use Rattle.std.specs.List.{list_all};
ghost use Rattle.resin_value.specs.Under.label.Sets.{same, empty};
ghost use Rattle.resin_value.specs.Under.lstr.Texts.{sets_of};
ghost use Rattle.resin_value.specs.Under.lstr.declared.text.Run.{Run};
ghost use Rattle.resin_session.specs.Reading as spec;

use resin_value::under::label::PSet;
use resin_value::under::lstr::{LText, Run};

// Whether the bytes of a run carry no labels.
fn is_unlabelled(run: &Run) -> bool
    ensures { result ≡ same empty run.now.set }
{
    PSet::empty().same(&run.set)
}

// Whether the bytes of no run carry labels.
fn are_unlabelled(runs: &[Run]) -> bool
    ensures { result ≡ list_all (λ (r : Run). same empty r.set) runs.now }
{
    runs.iter().all(|run| is_unlabelled(run))
}

// Whether no byte carries a label.
pub(crate) fn is_plain(text: &LText) -> bool
    ensures { result ≡ spec.is_plain text.now }
{
    let runs = text.runs();
    are_unlabelled(runs)
}

// The set of each byte, where all have the same and there is one.
pub(crate) fn one_set(text: &LText) -> Option<&PSet>
    ensures { option_map (λ s. s.now) result ≡ spec.one_set (sets_of text.now) }
{
    let runs = text.runs();
    let count = runs.len();
    if count == 1 { Some(&runs[0].set) } else { None }
}
