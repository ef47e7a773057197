//! The kinds of tokens that the grammar knows.

ghost use Rattle.std.specs.Prelude.{◌≡◌};
ghost use Rattle.tt_sql.specs.grammar.Grammar.{is_of};
ghost use Rattle.tt_sql.specs.grammar.TokenKinds.{NAME, SHORT_NUMBER, OTHER_TEXT, is_name as name_test, is_number as number_test, is_negative as negative_test, is_quoted as quoted_test};
ghost use Rattle.tt_sql.specs.grammar.Written.{begins_other};
ghost use Rattle.tt_terminal.specs.KindNumbers.{kind_number};

/// A kind of token. Reserved words come first, then the words that may be names too, and then what is no
/// word of the language.
#[derive(Clone, Copy, PartialEq, Eq)]
pub enum LexemeKind {
    Select,
    From,
    Where,
    Group,
    By,
    Order,
    Limit,
    And,
    Or,
    Not,
    In,
    Is,
    Null,
    Between,
    At,
    Before,
    Insert,
    Into,
    Values,
    Update,
    Set,
    Delete,
    Create,
    Table,
    Drop,
    Alter,
    Copy,
    Clone,
    Swap,
    With,
    Inner,
    Join,
    On,
    As,
    Count,
    Sum,
    Min,
    Max,
    Startswith,
    Date,
    Asc,
    Desc,
    Timestamp,
    TimestampNtz,
    Offset,
    Statement,
    Replace,
    Transient,
    Int,
    Integer,
    Bigint,
    Varchar,
    String,
    Text,
    Cluster,
    DataRetentionTimeInDays,
    Undrop,
    Truncate,
    Rename,
    To,
    Clustering,
    Key,
    Suspend,
    Recluster,
    Resume,
    Begin,
    Work,
    Transaction,
    Start,
    Commit,
    Rollback,
    Call,
    SystemWait,
    Explain,
    Show,
    Tables,
    History,
    InformationSchema,
    TableStorageMetrics,
    SystemClusteringDepth,
    /// A word that is none of the above, of at most 64 bytes.
    Name,
    /// A longer one, which is no name.
    LongName,
    /// At most nine digits.
    ShortNumber,
    /// More digits, and at most 9,223,372,036,854,775,807.
    Number,
    /// 9,223,372,036,854,775,808, which may stand behind a minus.
    LeastNumber,
    /// A greater number.
    LargeNumber,
    /// A quoted text that is a date.
    DateText,
    /// A quoted text that is a timestamp.
    TimeText,
    /// A quoted text that is a unit of time.
    UnitText,
    /// A quoted text that is a word, and a name.
    NameText,
    /// Another quoted text.
    OtherText,
    Open,
    Close,
    Comma,
    Dot,
    Semicolon,
    Star,
    Plus,
    Minus,
    Equal,
    /// `<>` or `!=`.
    Unequal,
    Less,
    LessEqual,
    Greater,
    GreaterEqual,
    Arrow,
    DoubleColon,
    /// No sign of the grammar has it.
    Unknown,
}

impl LexemeKind {
    /// The number that the grammar has for it.
    pub fn number(self) -> u8
        ensures { result ≡ kind_number self }
    {
        self as u8
    }

    /// A word that may be a name: not reserved, and of at most 64 bytes.
    pub fn is_name(self) -> bool
        ensures { result ≡ is_of NAME name_test (kind_number self) }
    {
        let number = self.number();
        LexemeKind::Count.number() <= number && number <= LexemeKind::Name.number()
    }

    /// A number of at most 9,223,372,036,854,775,807.
    pub fn is_number(self) -> bool
        ensures { result ≡ is_of SHORT_NUMBER number_test (kind_number self) }
    {
        self == LexemeKind::ShortNumber || self == LexemeKind::Number
    }

    /// A number that may stand behind a minus.
    pub fn is_negative(self) -> bool
        ensures { result ≡ is_of SHORT_NUMBER negative_test (kind_number self) }
    {
        let number = self.number();
        LexemeKind::ShortNumber.number() <= number && number <= LexemeKind::LeastNumber.number()
    }

    /// A text in quotes, whatever stands in it.
    pub fn is_quoted(self) -> bool
        ensures { result ≡ is_of OTHER_TEXT quoted_test (kind_number self) }
    {
        let number = self.number();
        LexemeKind::DateText.number() <= number && number <= LexemeKind::OtherText.number()
    }

    /// What a factor may begin with that is no number.
    pub fn begins_factor(self) -> bool
        ensures { result ≡ begins_other (kind_number self) }
    {
        let number = self.number();
        number == LexemeKind::Null.number()
            || self.is_name()
            || self.is_quoted()
            || number == LexemeKind::Open.number()
            || number == LexemeKind::Minus.number()
    }
}
