//! What each analysis lists of a block, or its refusal.
ghost use Rattle.std.specs.Prelude.{◌≡◌, Some};
ghost use Rattle.people.specs.Listed.{Lists, NamesListed, listed_text, rules_word};

use crate::quoted::CountedNames;
use block_lines::Names;
use fault::Fault;
use findings::{FindingsFault, FindingsTables};
use std::fmt;

/// The rules by which an analysis lists.
#[derive(Clone, Copy, PartialEq, Eq, Debug)]
pub enum Rules {
    CommonJs,
    Es,
}

/// What an analysis lists: the names, or its refusal.
#[derive(Clone, Copy)]
pub struct ListedNames<'t, 'a> {
    pub rules: Rules,
    pub names: Result<Names<'t, 'a>, FindingsFault>,
}

/// What an analysis lists that answers so, of the tree of a text section, in tables that it filled.
#[tactic(auto, using(crate::proofs::Listing::lists_outcome))]
pub fn listed<'t, 'a>(
    rules: Rules,
    text: &'t [u8],
    answer: Result<(), FindingsFault>,
    tables: &'a FindingsTables<'_>,
) -> ListedNames<'t, 'a>
    ensures rules { result.rules ≡ rules }
    ensures names { NamesListed text.now answer tables.now result.names }
    ensures lists { Lists rules text.now answer tables.now (listed_text result.rules result.names) }
{
    let names = match answer {
        Ok(()) => Ok(Names {
            text,
            exports: tables.exports.held(),
            reexports: tables.reexports.held(),
        }),
        Err(refusal) => Err(refusal),
    };
    ListedNames { rules, names }
}

/// The word for the rules.
impl fmt::Display for Rules {
    ghost output = { λ x. Some (rules_word x) };

    fn fmt<W: fmt::Write>(&self, f: &mut fmt::Formatter<W>) -> fmt::Result {
        f.write_str(match self {
            Rules::CommonJs => "CommonJS",
            Rules::Es => "ES",
        })
    }
}

/// The exports and the re-exports, or the fault and its reason.
impl fmt::Display for ListedNames<'_, '_> {
    ghost output = { λ x. Some (listed_text x.rules x.names) };

    fn fmt<W: fmt::Write>(&self, f: &mut fmt::Formatter<W>) -> fmt::Result {
        let rules = self.rules;
        match self.names {
            Ok(names) => {
                let exports = CountedNames {
                    text: names.text,
                    rows: names.exports,
                };
                let reexports = CountedNames {
                    text: names.text,
                    rows: names.reexports,
                };
                write!(
                    f,
                    "{rules} exports: {exports}\n{rules} re-exports: {reexports}"
                )
            }
            Err(refusal) => {
                let fault = Fault::from(refusal);
                write!(
                    f,
                    "{rules} rules: {fault}: a table has no row left for what is found at this place"
                )
            }
        }
    }
}
