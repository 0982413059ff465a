//! A list of calls on a book.
ghost use Rattle.std.specs.Prelude.{◌≡◌, ◌≤◌, ◌<◌, ◌+◌, ◌++◌, ◌∷◌, [], length};

use promise::call::Call;

/// The most calls: a picture for each of 64 rows, and eight more.
const ROOM: usize = 72;

/// Calls one behind the other.
// An array by value: a further call gives a further list, and the one before can still be gone on with.
#[derive(Clone, Copy)]
pub struct Script<'a> {
    calls: [Call<'a>; ROOM],
    number: usize,
    ghost in_room: { number ≤ 72 },
}

impl<'a> Script<'a> {
    ghost use Rattle.card.specs.Scripts.{calls, pictures};

    /// A picture for each line.
    pub fn of_lines(lines: &[&'a [u8]]) -> Script<'a>
        requires { length lines.now ≤ 64 }
        ensures calls { calls result ≡ pictures lines.now }
        ensures number { length (calls result) ≡ length lines.now }
    {
        let mut script = Script {
            calls: [Call::Route; ROOM],
            number: 0,
        };
        for (row, text) in lines.iter().enumerate() {
            script = script.with(Call::Picture {
                row: row as u8,
                text,
            });
        }
        script
    }

    /// The same calls and one more.
    pub fn with(self, call: Call<'a>) -> Script<'a>
        requires { length (calls self) < 72 }
        ensures { calls result ≡ calls self.entry ++ call.entry ∷ [] }
    {
        let mut calls = self.calls;
        calls[self.number] = call;
        Script {
            calls,
            number: self.number + 1,
        }
    }

    /// The calls.
    pub fn calls(&self) -> &[Call<'a>]
        ensures { result.now ≡ calls self.now }
    {
        &self.calls[..self.number]
    }
}
