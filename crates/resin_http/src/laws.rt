//! Laws of the requests of a stream, each on a function that does nothing.
ghost use Rattle.resin_http.specs.Head.{HeadLaw};
ghost use Rattle.resin_http.specs.Marks.{MarkStays};
ghost use Rattle.resin_http.specs.Stream.{StaysFirst, TakesSome, EndsShortest, AnswersGrow};

/// The heads that a stream takes are exactly those of the grammar.
pub fn head_law()
    ensures { HeadLaw }
{}

/// What decides an answer decides it whatever follows.
pub fn stays_first()
    ensures { StaysFirst }
{}

/// An answer takes at least one byte, and at most the stream.
pub fn takes_some()
    ensures { TakesSome }
{}

/// The length that is told with an answer is the end of the shortest front of the stream that decides it.
pub fn ends_shortest()
    ensures { EndsShortest }
{}

/// The answers of a front of a stream are the first answers of the stream, so they do not depend on how it is cut into pieces.
pub fn answers_grow()
    ensures { AnswersGrow }
{}

/// What a mark says of a stream stays true when more bytes come.
pub fn mark_stays()
    ensures { MarkStays }
{}
