//! 10, UnknownFile: no staged file has the name.

ghost use Rattle.std.specs.Prelude.{◌≡◌};
ghost use Rattle.std.specs.Option.{option_copied};
ghost use Rattle.tt_plain.specs.refusal.UnknownFile as spec;
ghost use Rattle.tt_model_asked.specs.AskedAs.{asked_in, IsAskedOf};

use crate::asked::{Asked, is_same};
use tt_history::Refusal;
use tt_script::{FileText, Program};
use tt_sql::{Dml, Statement};
use tt_value::Text;

/// The staged file of a name.
pub fn file_named<'a>(program: &'a Program, name: &Text) -> Option<&'a FileText>
    ensures { option_copied result ≡ spec.file_named program.now name.now }
{
    program
        .script()
        .files
        .items()
        .iter()
        .find(|file| is_same(&file.name, name))
}

/// Why a COPY is refused for its file.
pub fn unknown_file(asked: &Asked<'_>, statement: &Statement) -> Option<Refusal>
    requires { IsAskedOf asked.now statement.now }
    ensures { result ≡ spec.unknown_file (asked_in asked.now) }
{
    let Statement::Dml(Dml::Copy(copy)) = statement else {
        return None;
    };
    match file_named(asked.program, &copy.file.text) {
        Some(_) => None,
        None => Some(Refusal::UnknownFile(copy.file.place)),
    }
}
