//! How a text is encoded, and which kinds may stand at a place: the words of the table of kinds.
ghost use Rattle.std.specs.Prelude.{◌≡◌};
ghost use Rattle.kinds.specs.Number.{number};
ghost use Rattle.kinds.specs.Shape.{has};

use crate::kind::{Kind, UnknownKind};
pub use crate::number::{
    fewest_children, first_child_group, highest_mark, is_kind, last_child_group, later_child_group,
    most_children, text_of,
};

/// How the text of a row is encoded.
#[derive(Clone, Copy, PartialEq, Eq, Debug)]
pub enum Encoding {
    Utf8,
    Wtf8,
}

/// The kinds that may stand at a child's place.
#[derive(Clone, Copy, PartialEq, Eq, Debug)]
pub enum Group {
    Any,
    Block,
    Declaration,
    Declarator,
    Function,
    Ident,
    Key,
    MemberProperty,
    Name,
    NotBlock,
    NotModuleItem,
    PatternProperty,
    Property,
    Specifier,
    SpecifierOrStr,
    Str,
}

/// Whether a kind is that of a specifier.
fn is_specifier(kind: Kind) -> bool
    ensures { result ≡ has Group.Specifier (number kind) }
{
    (Kind::NamespaceSpec..=Kind::NamedSpec).contains(&kind)
}

impl Group {
    /// Whether a kind belongs to the group: as `has`, of a kind that is known.
    pub fn takes(self, kind: Kind) -> bool
        ensures { result ≡ has self (number kind) }
    {
        match self {
            Group::Any => true,
            Group::Block => kind == Kind::Block,
            Group::Declaration => {
                matches!(kind, Kind::VarDecl | Kind::UsingDecl)
                    || (Kind::ClassDecl..=Kind::TypeDecl).contains(&kind)
            }
            Group::Declarator => kind == Kind::Declarator,
            Group::Function => kind == Kind::Function,
            Group::Ident => kind == Kind::Ident,
            Group::Key => matches!(
                kind,
                Kind::Ident | Kind::Str | Kind::Num | Kind::OtherLit | Kind::Computed
            ),
            Group::MemberProperty => {
                matches!(kind, Kind::Ident | Kind::PrivateName | Kind::Computed)
            }
            Group::Name => matches!(kind, Kind::Ident | Kind::Str),
            Group::NotBlock => kind != Kind::Block,
            Group::NotModuleItem => !(Kind::Import..=Kind::TsNamespaceExport).contains(&kind),
            Group::PatternProperty => (Kind::KeyValuePat..=Kind::RestPat).contains(&kind),
            Group::Property => {
                matches!(kind, Kind::Other | Kind::Spread)
                    || (Kind::KeyValue..=Kind::Method).contains(&kind)
            }
            Group::Specifier => is_specifier(kind),
            Group::SpecifierOrStr => kind == Kind::Str || is_specifier(kind),
            Group::Str => kind == Kind::Str,
        }
    }

    /// Whether a child whose kind has this number may stand here. One that no kind has is refused for its own row,
    /// and here only where the group lists kinds.
    pub fn has(self, number: u32) -> bool
        ensures { result ≡ has self number }
    {
        match Kind::try_from(number) {
            Ok(kind) => self.takes(kind),
            Err(UnknownKind(_)) => {
                matches!(self, Group::Any | Group::NotBlock | Group::NotModuleItem)
            }
        }
    }
}
