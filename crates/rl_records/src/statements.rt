// The forms of statements.
ghost use Rattle.std.specs.Prelude.{◌≡◌, slice_index};
ghost use Rattle.rl_spec.specs.Statement.{statement_by, statement_of};
ghost use Rattle.rl_spec.specs.Found.{record_as};
ghost use Rattle.rl_records.specs.Found.{found};

use crate::ImageRef;
use crate::texts::{interval_at, optional_at};
use rl_bytes::{get_or, u16_at};
use rl_spec::StatementForm;

// The form of the record at a place. Its fields stand behind the kind and the span.
fn statement_in(bytes: &[u8], start: u16) -> StatementForm
    ensures { result ≡ statement_by (record_as bytes.now (slice_index bytes.now start) start) }
{
    let at = (start as usize) + 1 + 4;
    match get_or(bytes, start as usize, 0) {
        64 => StatementForm::Declaration {
            name: u16_at(bytes, at),
            value: u16_at(bytes, at + 2 + 4),
        },
        65 => StatementForm::Expression(u16_at(bytes, at)),
        66 => StatementForm::Return(u16_at(bytes, at)),
        67 => StatementForm::ReturnAlone,
        68 => StatementForm::Conditional {
            branch: u16_at(bytes, at),
            other: optional_at(bytes, at + 2),
        },
        69 => StatementForm::Branch {
            condition: optional_at(bytes, at),
            body: interval_at(bytes, at + 2),
        },
        70 => StatementForm::While {
            condition: u16_at(bytes, at),
            body: interval_at(bytes, at + 2),
        },
        71 => StatementForm::Loop(interval_at(bytes, at)),
        77 => StatementForm::Break,
        78 => StatementForm::Continue,
        _ => StatementForm::Other,
    }
}

impl ImageRef<'_, '_> {
    // The form of the n-th statement.
    pub fn statement(self, n: u16) -> StatementForm
        ensures { result ≡ statement_of (found self.entry) n }
    {
        if self.counts.statements <= n {
            return StatementForm::Other;
        }
        let i = (self.counts.expressions as usize) + (n as usize);
        statement_in(self.bytes, get_or(self.starts, i, 0))
    }
}
