ghost use Rattle.std.specs.Prelude.{◌≡◌, ◌+◌, ◌<◌, ◌≤◌, ◌^◌, IfSome, drop, is_some, slice_get};
ghost use Rattle.tokens.specs.Text.{lines};
ghost use Rattle.tokens.specs.Rows.{rows, AreNumbered};

use crate::fields::Fields;
use crate::part::up_to;
use std::marker::Model;

// Reads the lent input line by line. This project asks for the input with an index. What it is to a caller: the lines that are left, as rows.
#[derive(Clone, Drop)]
pub struct Reader<'a> {
    input: &'a [u8],
    // Where the next line begins.
    at: usize,
    // The number of that line.
    line: usize,
}

impl<'a> Model for Reader<'a> {
    ghost use Rattle.std.specs.Prelude.{List};
    ghost use Rattle.tokens.specs.Rows.{Row};

    ghost Value = { List Row };

    ghost use Rattle.tokens.specs.Ahead.{lines_ahead, WithinInput};

    ghost view = { lines_ahead };

    ghost invariant = { WithinInput };
}

impl<'a> Reader<'a> {
    pub fn new(input: &'a [u8]) -> Self
        ensures { result ≡ rows 1 (lines input.now) }
    {
        Reader {
            input,
            at: 0,
            line: 1,
        }
    }

    // Is a line left?
    pub fn has_line(&self) -> bool
        ensures { result ≡ is_some (slice_get self.now 0) }
    {
        self.at < self.input.len()
    }

    // The number of the line that is read next, if one is left. Past the last line it is the next number, or, where the newline of that
    // line is missing, still its own.
    pub fn line(&self) -> usize
        ensures told { IfSome (slice_get self.now 0) (λ r. r.place.line ≡ result) }
        ensures counted { result ≤ 2 ^ 63 }
    {
        let Reader { line, .. } = self;
        if self.has_line() || matches!(self.input, [] | [.., b'\n']) {
            *line
        } else {
            line.saturating_sub(1)
        }
    }

    // The fields of the next line, which is passed; none where no line is left.
    pub fn next_line(&mut self) -> Option<Fields<'a>>
        ensures told { result ≡ slice_get self.old 0 }
        ensures passes { self.new ≡ drop 1 self.old }
        ensures counted { IfSome result (λ f. f.place.line < 2 ^ 63) }
        ensures numbered { AreNumbered self.old }
        ensures follows { IfSome result
            (λ f. IfSome (slice_get self.new 0) (λ r. r.place.line ≡ f.place.line + 1)) }
    {
        if self.at >= self.input.len() {
            return None;
        }
        let line = up_to(&self.input[self.at..], b'\n');
        let fields = Fields::new(line, self.line);
        // The last line may lack its newline.
        self.at = (self.at + line.len() + 1).min(self.input.len());
        self.line += 1;
        Some(fields)
    }
}
