ghost use Rattle.std.specs.Prelude.{◌≡◌, ◌≢◌, ℕ, List, All, Contains, MatchOption};

// Values that a script writes as words.
pub trait Word: Copy + 'static {
    // How a value is written.
    ghost text: { Self → List ℕ };

    // All values.
    ghost all: { List Self };

    fn word(self) -> &'static str
        ensures { result.now ≡ text self };

    fn all() -> &'static [Self]
        ensures { result.now ≡ all };

    ghost complete: { (x : Self) → Contains all x };
}

// The first of some values that a word says.
fn first_named<T: Word>(all: &[T], word: &str) -> Option<T>
    ensures { MatchOption result (All (λ x. T.text x ≢ word.now) all.now) (λ x. T.text x ≡ word.now) }
{
    all.iter().copied().find(|x| x.word() == word)
}

// The value that a word says.
pub fn named<T: Word>(word: &str) -> Option<T>
    ensures { MatchOption result ((x : T) → T.text x ≢ word.now) (λ x. T.text x ≡ word.now) }
{
    first_named(T::all(), word)
}
