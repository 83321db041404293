// The word that a record begins with.
ghost use Rattle.std.specs.Prelude.{◌≡◌};
ghost use Rattle.script.specs.Verbs.{verb_of};

// What a record asks for.
#[derive(Clone, Copy, PartialEq, Eq, Debug)]
pub enum Verb {
    Open,
    Place,
    Move,
    Lift,
    Remove,
    Tell,
    Show,
}

impl Verb {
    // The verb that a word spells; None says all that there is to say of another, so this is no TryFrom.
    pub fn read(word: &[u8]) -> Option<Verb>
        ensures { result ≡ verb_of word.now }
    {
        match word {
            b"open" => Some(Verb::Open),
            b"place" => Some(Verb::Place),
            b"move" => Some(Verb::Move),
            b"lift" => Some(Verb::Lift),
            b"remove" => Some(Verb::Remove),
            b"tell" => Some(Verb::Tell),
            b"show" => Some(Verb::Show),
            _ => None,
        }
    }
}
