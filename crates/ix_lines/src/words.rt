//! Words of a line.

ghost use Rattle.std.specs.Prelude.{◌≡◌, ◌==◌, ◌∷◌, ◌++◌, position};
ghost use Rattle.std.specs.Option.{option_copied};
ghost use Rattle.ix_lines.specs.Words.{words_of};
ghost use Rattle.ix_lines.specs.inside.WordsBehind.{words_behind, behind_word, HasNoSpace};

/// The first word of a text, and what stands behind the space that ends it, or None where no space
/// does. Takes no memory.
pub fn split_word(text: &[u8]) -> (&[u8], Option<&[u8]>)
    ensures words { words_of text.now ≡ result.0.now ∷ words_behind (option_copied result.1) }
    ensures bytes { text.now ≡ result.0.now ++ behind_word (option_copied result.1) }
    ensures plain { HasNoSpace result.0.now }
{
    match first_space(text) {
        Some(at) => (&text[..at], Some(&text[at + 1..])),
        None => (text, None),
    }
}

fn first_space(text: &[u8]) -> Option<usize>
    ensures { result ≡ position (λ byte. byte == 32) text.now }
{
    text.iter().position(|byte| *byte == b' ')
}
