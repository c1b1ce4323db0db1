//! The kinds of rows. docs/TREE.md has their table.
ghost use Rattle.std.specs.Prelude.{◌≡◌};
ghost use Rattle.kinds.specs.Number.{Decodes, number};
ghost use Rattle.kinds.specs.Table.{ColumnsAreTheTable};

/// What a row of a tree is. Its number is the one that a tree block has for it.
#[derive(Clone, Copy, PartialEq, Eq, PartialOrd, Ord, Debug)]
pub enum Kind {
    Other = 0,
    Program = 1,
    Ident = 2,
    Str = 3,
    Num = 4,
    OtherLit = 5,
    Call = 6,
    Spread = 7,
    Member = 8,
    PrivateName = 9,
    Computed = 10,
    Paren = 11,
    Seq = 12,
    Assign = 13,
    Object = 14,
    KeyValue = 15,
    Shorthand = 16,
    Getter = 17,
    Setter = 18,
    Method = 19,
    Function = 20,
    FnExpr = 21,
    Arrow = 22,
    Block = 23,
    Return = 24,
    VarDecl = 25,
    UsingDecl = 26,
    Declarator = 27,
    ArrayPat = 28,
    ObjectPat = 29,
    KeyValuePat = 30,
    AssignPatProp = 31,
    RestPat = 32,
    AssignPat = 33,
    Import = 34,
    ExportAll = 35,
    ExportDecl = 36,
    ExportNamed = 37,
    NamespaceSpec = 38,
    DefaultSpec = 39,
    NamedSpec = 40,
    ExportDefault = 41,
    TsImportEquals = 42,
    TsExportAssignment = 43,
    TsNamespaceExport = 44,
    ClassDecl = 45,
    FnDecl = 46,
    TsEnum = 47,
    TsModule = 48,
    TypeDecl = 49,
}

/// A number that no kind has.
#[derive(Clone, Copy, PartialEq, Eq, Debug)]
pub struct UnknownKind(pub u32);

/// The kinds in the order of their numbers, once more: Rust has no cast from a number to an enum. The cast the other
/// way is `Kind::number`.
static KINDS: [Kind; 50] = [
    Kind::Other,
    Kind::Program,
    Kind::Ident,
    Kind::Str,
    Kind::Num,
    Kind::OtherLit,
    Kind::Call,
    Kind::Spread,
    Kind::Member,
    Kind::PrivateName,
    Kind::Computed,
    Kind::Paren,
    Kind::Seq,
    Kind::Assign,
    Kind::Object,
    Kind::KeyValue,
    Kind::Shorthand,
    Kind::Getter,
    Kind::Setter,
    Kind::Method,
    Kind::Function,
    Kind::FnExpr,
    Kind::Arrow,
    Kind::Block,
    Kind::Return,
    Kind::VarDecl,
    Kind::UsingDecl,
    Kind::Declarator,
    Kind::ArrayPat,
    Kind::ObjectPat,
    Kind::KeyValuePat,
    Kind::AssignPatProp,
    Kind::RestPat,
    Kind::AssignPat,
    Kind::Import,
    Kind::ExportAll,
    Kind::ExportDecl,
    Kind::ExportNamed,
    Kind::NamespaceSpec,
    Kind::DefaultSpec,
    Kind::NamedSpec,
    Kind::ExportDefault,
    Kind::TsImportEquals,
    Kind::TsExportAssignment,
    Kind::TsNamespaceExport,
    Kind::ClassDecl,
    Kind::FnDecl,
    Kind::TsEnum,
    Kind::TsModule,
    Kind::TypeDecl,
];

/// The kind that has a number, or an error where no kind has it.
impl TryFrom<u32> for Kind {
    type Error = UnknownKind;

    ghost try_from_gives = { Decodes };

    fn try_from(number: u32) -> Result<Self, UnknownKind> {
        let at = number as usize;
        if at < KINDS.len() {
            Ok(KINDS[at])
        } else {
            Err(UnknownKind(number))
        }
    }
}

impl Kind {
    /// The number of the kind in a tree block. The table of the kinds has a line for each.
    #[tactic(auto, using(crate::proofs::Tried::columns_are_the_table))]
    pub fn number(self) -> u32
        ensures is { result ≡ number self }
        ensures table { ColumnsAreTheTable }
    {
        self as u32
    }
}
