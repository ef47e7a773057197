//! The words and signs of the language with their kinds.

ghost use Rattle.std.specs.Prelude.{◌≡◌, ◌<◌, ◌+◌, true};
ghost use Rattle.std.specs.List.{list_all};
ghost use Rattle.tt_sql.specs.grammar.TokenKinds.{upper, word_kind, sign_kind};
ghost use Rattle.tt_parse.specs.Tables.{words_of, is_upper, StandsOrNot};
ghost use Rattle.tt_terminal.specs.KindNumbers.{kind_number};
ghost use Rattle.tt_lex.specs.Lexis.{is_sign};

use tt_terminal::kind::LexemeKind;

/// The most bytes that a name may have.
const LONGEST_NAME: usize = 64;

/// The words in upper case, in the order of their kinds.
const WORDS: [(&[u8], LexemeKind); 80] = [
    (b"SELECT", LexemeKind::Select),
    (b"FROM", LexemeKind::From),
    (b"WHERE", LexemeKind::Where),
    (b"GROUP", LexemeKind::Group),
    (b"BY", LexemeKind::By),
    (b"ORDER", LexemeKind::Order),
    (b"LIMIT", LexemeKind::Limit),
    (b"AND", LexemeKind::And),
    (b"OR", LexemeKind::Or),
    (b"NOT", LexemeKind::Not),
    (b"IN", LexemeKind::In),
    (b"IS", LexemeKind::Is),
    (b"NULL", LexemeKind::Null),
    (b"BETWEEN", LexemeKind::Between),
    (b"AT", LexemeKind::At),
    (b"BEFORE", LexemeKind::Before),
    (b"INSERT", LexemeKind::Insert),
    (b"INTO", LexemeKind::Into),
    (b"VALUES", LexemeKind::Values),
    (b"UPDATE", LexemeKind::Update),
    (b"SET", LexemeKind::Set),
    (b"DELETE", LexemeKind::Delete),
    (b"CREATE", LexemeKind::Create),
    (b"TABLE", LexemeKind::Table),
    (b"DROP", LexemeKind::Drop),
    (b"ALTER", LexemeKind::Alter),
    (b"COPY", LexemeKind::Copy),
    (b"CLONE", LexemeKind::Clone),
    (b"SWAP", LexemeKind::Swap),
    (b"WITH", LexemeKind::With),
    (b"INNER", LexemeKind::Inner),
    (b"JOIN", LexemeKind::Join),
    (b"ON", LexemeKind::On),
    (b"AS", LexemeKind::As),
    (b"COUNT", LexemeKind::Count),
    (b"SUM", LexemeKind::Sum),
    (b"MIN", LexemeKind::Min),
    (b"MAX", LexemeKind::Max),
    (b"STARTSWITH", LexemeKind::Startswith),
    (b"DATE", LexemeKind::Date),
    (b"ASC", LexemeKind::Asc),
    (b"DESC", LexemeKind::Desc),
    (b"TIMESTAMP", LexemeKind::Timestamp),
    (b"TIMESTAMP_NTZ", LexemeKind::TimestampNtz),
    (b"OFFSET", LexemeKind::Offset),
    (b"STATEMENT", LexemeKind::Statement),
    (b"REPLACE", LexemeKind::Replace),
    (b"TRANSIENT", LexemeKind::Transient),
    (b"INT", LexemeKind::Int),
    (b"INTEGER", LexemeKind::Integer),
    (b"BIGINT", LexemeKind::Bigint),
    (b"VARCHAR", LexemeKind::Varchar),
    (b"STRING", LexemeKind::String),
    (b"TEXT", LexemeKind::Text),
    (b"CLUSTER", LexemeKind::Cluster),
    (
        b"DATA_RETENTION_TIME_IN_DAYS",
        LexemeKind::DataRetentionTimeInDays,
    ),
    (b"UNDROP", LexemeKind::Undrop),
    (b"TRUNCATE", LexemeKind::Truncate),
    (b"RENAME", LexemeKind::Rename),
    (b"TO", LexemeKind::To),
    (b"CLUSTERING", LexemeKind::Clustering),
    (b"KEY", LexemeKind::Key),
    (b"SUSPEND", LexemeKind::Suspend),
    (b"RECLUSTER", LexemeKind::Recluster),
    (b"RESUME", LexemeKind::Resume),
    (b"BEGIN", LexemeKind::Begin),
    (b"WORK", LexemeKind::Work),
    (b"TRANSACTION", LexemeKind::Transaction),
    (b"START", LexemeKind::Start),
    (b"COMMIT", LexemeKind::Commit),
    (b"ROLLBACK", LexemeKind::Rollback),
    (b"CALL", LexemeKind::Call),
    (b"SYSTEM$WAIT", LexemeKind::SystemWait),
    (b"EXPLAIN", LexemeKind::Explain),
    (b"SHOW", LexemeKind::Show),
    (b"TABLES", LexemeKind::Tables),
    (b"HISTORY", LexemeKind::History),
    (b"INFORMATION_SCHEMA", LexemeKind::InformationSchema),
    (b"TABLE_STORAGE_METRICS", LexemeKind::TableStorageMetrics),
    (
        b"SYSTEM$CLUSTERING_DEPTH",
        LexemeKind::SystemClusteringDepth,
    ),
];

/// The signs, but for the second form of `<>`, in the order of their kinds.
const SIGNS: [(&[u8], LexemeKind); 16] = [
    (b"(", LexemeKind::Open),
    (b")", LexemeKind::Close),
    (b",", LexemeKind::Comma),
    (b".", LexemeKind::Dot),
    (b";", LexemeKind::Semicolon),
    (b"*", LexemeKind::Star),
    (b"+", LexemeKind::Plus),
    (b"-", LexemeKind::Minus),
    (b"=", LexemeKind::Equal),
    (b"<>", LexemeKind::Unequal),
    (b"<", LexemeKind::Less),
    (b"<=", LexemeKind::LessEqual),
    (b">", LexemeKind::Greater),
    (b">=", LexemeKind::GreaterEqual),
    (b"=>", LexemeKind::Arrow),
    (b"::", LexemeKind::DoubleColon),
];

/// The kind that stands with this word, in any case, if it is in the table.
fn kind_in(table: &[(&[u8], LexemeKind)], word: &[u8]) -> Option<LexemeKind>
    requires { list_all is_upper (words_of table.now) ≡ true }
    ensures { StandsOrNot table.now word.now result }
{
    for (other, kind) in table {
        if word.eq_ignore_ascii_case(other) {
            return Some(*kind);
        }
    }
    None
}

/// The kind of a word.
#[tactic(auto, unfolding(tt_sql::specs::grammar::TokenKinds::word_kind))]
pub fn word_kind_of(word: &[u8]) -> LexemeKind
    ensures { kind_number result ≡ word_kind (upper word.now) }
{
    match kind_in(&WORDS, word) {
        Some(kind) => kind,
        None if word.len() <= LONGEST_NAME => LexemeKind::Name,
        None => LexemeKind::LongName,
    }
}

/// The kind of a sign.
#[tactic(auto, unfolding(tt_sql::specs::grammar::TokenKinds::sign_kind))]
pub fn sign_kind_of(sign: &[u8]) -> LexemeKind
    requires { is_sign sign.now ≡ true }
    ensures { kind_number result ≡ sign_kind sign.now }
{
    if sign == b"!=".as_slice() {
        return LexemeKind::Unequal;
    }
    match kind_in(&SIGNS, sign) {
        Some(kind) => kind,
        None => LexemeKind::Unknown,
    }
}
