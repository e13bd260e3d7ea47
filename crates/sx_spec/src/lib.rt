//! The definitions that the contracts of the other crates cite, and the plain types they speak of.
#![tactic(auto)]

ghost use Rattle.std.specs.Prelude.{◌≡◌};
ghost use Rattle.sx_spec.specs.Codes.{status_code};
ghost use Rattle.sx_spec.specs.Keys.{standard_limits};

pub mod examples;
pub mod laws;

pub use sx_spec_kinds::Kind;

/// How a function is built: by peeling a hypergraph, or by solving a linear system over GF(2).
#[derive(Clone, Copy, PartialEq, Eq, Debug)]
pub enum Method {
    Mwhc,
    Gov3,
}

/// The three words of a string's signature.
#[derive(Clone, Copy, PartialEq, Eq, PartialOrd, Ord, Debug)]
pub struct Signature {
    pub w0: u64,
    pub w1: u64,
    pub w2: u64,
}

/// What is to be built. A number of an option that doesn't go with the kind is 0.
#[derive(Clone, Copy, PartialEq, Eq, Debug)]
pub struct Plan {
    pub kind: Kind,
    pub method: Method,
    pub log_bucket: u32,
    pub sig_bits: u32,
    pub handle_bits: u32,
    /// How many bits of each key's signature are kept, 0 for an unsigned dump.
    pub signed: u32,
}

/// The bounds on a key file.
#[derive(Clone, Copy, PartialEq, Eq, Debug)]
pub struct Limits {
    /// How many bytes a line has at most.
    pub max_line: usize,
    /// How many keys there are at most.
    pub max_keys: u32,
    /// How many bytes the keys have at most together.
    pub max_bytes: u64,
}

impl Limits {
    /// The limits of the program: 8,191 bytes a line, 4,194,304 keys, 268,435,456 bytes in all.
    pub const fn standard() -> Limits
        ensures { result ≡ standard_limits }
    {
        Limits {
            max_line: 8191,
            max_keys: 4_194_304,
            max_bytes: 268_435_456,
        }
    }
}

/// Three different vertices of a hypergraph, or three different unknowns of a linear system.
#[derive(Clone, Copy, PartialEq, Eq, Debug)]
pub struct Edge {
    pub a: u32,
    pub b: u32,
    pub c: u32,
}

/// The xor of the unknowns `a`, `b` and `c` is the value.
#[derive(Clone, Copy, PartialEq, Eq, Debug)]
pub struct Equation {
    pub a: u32,
    pub b: u32,
    pub c: u32,
    pub value: u64,
}

/// The options of `build`.
#[derive(Clone, Copy, PartialEq, Eq, Debug)]
pub enum OptionName {
    Seeds,
    Method,
    LogBucket,
    SigBits,
    HandleBits,
    Signed,
    Values,
}

/// The rules of usage, in the order in which they are tried.
#[derive(Clone, Copy, PartialEq, Eq, Debug)]
pub enum Rule {
    NoCommand,
    UnknownCommand,
    BadWords,
    UnknownKind,
    BadNumber,
    BadValue(OptionName),
    DoesNotGo { name: OptionName, kind: Kind },
    SignedAndValues,
}

/// How a run of the program ended.
#[derive(Clone, Copy, PartialEq, Eq, Debug)]
pub enum Status {
    Done,
    BadInput,
    Usage,
    SeedsFailed,
    BadDump,
    Fault,
    Memory,
}

impl Status {
    /// The number that a run's status is to the system.
    pub fn code(self) -> u8
        ensures { result ≡ status_code self }
    {
        match self {
            Status::Done => 0,
            Status::BadInput => 1,
            Status::Usage => 2,
            Status::SeedsFailed => 3,
            Status::BadDump => 4,
            Status::Fault => 5,
            Status::Memory => 6,
        }
    }
}
