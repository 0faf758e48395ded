//! Places in a text.

ghost use Rattle.std.specs.Prelude.{◌≡◌, ◌+◌, ◌^◌, ◌<◌};
ghost use Rattle.std.specs.Str.{chars};
ghost use Rattle.je_tokens.specs.Places.{first_place, pos_behind, pos_after, place_after};
ghost use Rattle.je_tokens.specs.Places.{byte_count};

use je_base::Pos;

/// A place in a text.
#[derive(Clone, Copy, Debug)]
pub struct Place {
    /// How many bytes stand before it.
    pub offset: usize,
    pub pos: Pos,
}

const FIRST: Pos = Pos { line: 1, column: 1 };

/// The place of the first character.
pub fn first_place() -> Place
    ensures { result ≡ first_place }
{
    Place {
        offset: 0,
        pos: FIRST,
    }
}

/// The position after the last character of a text.
pub fn text_end(text: &str) -> Pos
    ensures { result ≡ pos_after (chars text.now) }
{
    let mut pos = FIRST;
    for c in text.chars() {
        pos = pos_behind(pos, c);
    }
    pos
}

/// The place behind some characters.
pub fn place_after(place: Place, text: &[char]) -> Place
    requires { place.offset + byte_count text.now < 2 ^ 64 }
    ensures { result ≡ place_after place text.now }
{
    let mut after = place;
    for c in text {
        after = Place {
            offset: after.offset + c.len_utf8(),
            pos: pos_behind(after.pos, *c),
        };
    }
    after
}

/// The position behind a character.
fn pos_behind(pos: Pos, c: char) -> Pos
    ensures { result ≡ pos_behind pos c }
{
    if c == '\n' {
        Pos {
            line: pos.line.saturating_add(1),
            column: 1,
        }
    } else {
        Pos {
            line: pos.line,
            column: pos.column.saturating_add(1),
        }
    }
}
