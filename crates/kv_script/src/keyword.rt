//! The words that lines begin with.

ghost use Rattle.std.specs.Prelude.{◌≡◌, ◌≢◌, MatchOption};
ghost use Rattle.kv_script.specs.Lines.{word};
ghost use Rattle.kv_script.specs.declared.keyword.Keyword.{Keyword as FirstWord};

/// The first word of a line, which says what it asks for.
#[derive(Clone, Copy, Debug, PartialEq, Eq)]
pub(crate) enum Keyword {
    Chain,
    At,
    Feed,
    Deliver,
    All,
    Tick,
    Flush,
    Clean,
    Fence,
    Promote,
    Fuse,
    Fail,
    Crash,
    Open,
}

/// The keyword that is spelled so, if there is one.
pub(crate) fn keyword_at(spelt: &[u8]) -> Option<Keyword>
    ensures { MatchOption result ((first : FirstWord) → word first ≢ spelt.now) (λ first. word first ≡ spelt.now) }
{
    match spelt {
        b"chain" => Some(Keyword::Chain),
        b"at" => Some(Keyword::At),
        b"feed" => Some(Keyword::Feed),
        b"deliver" => Some(Keyword::Deliver),
        b"all" => Some(Keyword::All),
        b"tick" => Some(Keyword::Tick),
        b"flush" => Some(Keyword::Flush),
        b"clean" => Some(Keyword::Clean),
        b"fence" => Some(Keyword::Fence),
        b"promote" => Some(Keyword::Promote),
        b"fuse" => Some(Keyword::Fuse),
        b"fail" => Some(Keyword::Fail),
        b"crash" => Some(Keyword::Crash),
        b"open" => Some(Keyword::Open),
        _ => None,
    }
}
