// The numbers of the NTS key exchange, and what a call can refuse with (the crate's src/nts/mod.rs).
#![tactic(auto)]

ghost use Rattle.std.specs.Prelude.{◌≡◌};
ghost use Rattle.nts.specs.Algorithm.{describe, told_description};
ghost use Rattle.nts.specs.Refusal.{number_of, beside_of, told_code};

// A protocol number as received (RFC 8915, section 4.1.2). It is kept apart from an algorithm's.
#[derive(Clone, Copy)]
pub struct NextProtocol(pub u16);

impl NextProtocol {
    pub const NTPV4: NextProtocol = NextProtocol(0);

    pub const DRAFT_NTPV5: NextProtocol = NextProtocol(0x8001);
}

// An algorithm number as received (RFC 8915, section 4.1.5).
#[derive(Clone, Copy)]
pub struct AeadAlgorithm(pub u16);

// An algorithm with the length of its key in bytes.
#[derive(Clone, Copy)]
pub struct AlgorithmDescription {
    pub id: AeadAlgorithm,
    pub keysize: u16,
}

#[derive(Clone, Copy)]
pub enum Description {
    Known(AlgorithmDescription),
    Unknown,
}

impl AeadAlgorithm {
    pub const AES_SIV_CMAC_256: AeadAlgorithm = AeadAlgorithm(15);

    pub const AES_SIV_CMAC_512: AeadAlgorithm = AeadAlgorithm(17);

    pub const KEY_256: u16 = 32;

    pub const KEY_512: u16 = 64;

    // The key length of the two algorithms that have one here.
    pub fn description(self) -> Description
        ensures { told_description result ≡ describe self.0 }
    {
        if self.0 == AeadAlgorithm::AES_SIV_CMAC_256.0 {
            return Description::Known(AlgorithmDescription {
                id: self,
                keysize: AeadAlgorithm::KEY_256,
            });
        }
        if self.0 == AeadAlgorithm::AES_SIV_CMAC_512.0 {
            return Description::Known(AlgorithmDescription {
                id: self,
                keysize: AeadAlgorithm::KEY_512,
            });
        }
        Description::Unknown
    }
}

// The code of an error record (RFC 8915, section 4.1.3).
#[derive(Clone, Copy)]
pub struct ErrorCode(pub u16);

impl ErrorCode {
    pub const UNRECOGNIZED_CRITICAL_RECORD: ErrorCode = ErrorCode(0);

    pub const BAD_REQUEST: ErrorCode = ErrorCode(1);

    pub const INTERNAL_SERVER_ERROR: ErrorCode = ErrorCode(2);
}

// The code of a warning record (RFC 8915, section 4.1.4, which names none).
#[derive(Clone, Copy)]
pub struct WarningCode(pub u16);

// Why a call refuses. The names are the crate's, and those of its I/O errors, where it has one.
#[derive(Clone, Copy)]
pub enum NtsError {
    // Bytes are missing.
    UnexpectedEof,
    // A body is ill-formed.
    InvalidData,
    // An unknown record has its critical bit set.
    UnrecognizedCriticalRecord,
    // The set of records is not allowed.
    Invalid,
    // A fixed-key request names another algorithm than 15 and 17.
    AeadNotSupported(AeadAlgorithm),
    // A key half has the wrong length.
    IncorrectSizedKey,
    // There are more names or cookies than the table or the plan holds.
    TableFull,
    // A body to write is longer than 65,535 bytes.
    InvalidInput,
    // The value is no record, plan, tray, connection or finding.
    InvalidValue,
    // The output is shorter than what is to be written.
    OutputTooShort,
    // The reply has an error record.
    Error(ErrorCode),
    // The reply has a warning record.
    UnknownWarning(WarningCode),
    // The two sides have no protocol in common.
    NoOverlappingProtocol,
    // They have no algorithm in common.
    NoOverlappingAlgorithm,
    // There is no cookie.
    NoCookie,
    // A byte arrives that a read needs, and the buffer has no room.
    BufferFull,
    // The reply names a protocol that was not offered.
    ProtocolNotOffered(NextProtocol),
    // It names an algorithm that was not offered.
    AeadNotOffered(AeadAlgorithm),
    // The strict profile does not allow the record, or the byte after the end record.
    NotAllowed,
}

// What is returned beside a refusal's number: with 17 a protocol or an algorithm, each as such.
#[derive(Clone, Copy)]
pub enum Code {
    None,
    Number(u16),
    Protocol(NextProtocol),
    Algorithm(AeadAlgorithm),
}

// A reading refusal: why, and the place of the first byte of the record concerned; of 18 for a byte after the end record, that byte's.
#[derive(Clone, Copy)]
pub struct Refusal {
    pub error: NtsError,
    pub place: usize,
}

impl NtsError {
    // The refusal's number.
    pub fn number(self) -> u8
        ensures { result ≡ number_of self }
    {
        match self {
            NtsError::UnexpectedEof => 1,
            NtsError::InvalidData => 2,
            NtsError::UnrecognizedCriticalRecord => 3,
            NtsError::Invalid => 4,
            NtsError::AeadNotSupported(_) => 5,
            NtsError::IncorrectSizedKey => 6,
            NtsError::TableFull => 7,
            NtsError::InvalidInput => 8,
            NtsError::InvalidValue => 9,
            NtsError::OutputTooShort => 10,
            NtsError::Error(_) => 11,
            NtsError::UnknownWarning(_) => 12,
            NtsError::NoOverlappingProtocol => 13,
            NtsError::NoOverlappingAlgorithm => 14,
            NtsError::NoCookie => 15,
            NtsError::BufferFull => 16,
            NtsError::ProtocolNotOffered(_) => 17,
            NtsError::AeadNotOffered(_) => 17,
            NtsError::NotAllowed => 18,
        }
    }

    // The algorithm number that comes with 5, the code with 11 and 12, and what was not offered with 17.
    pub fn code(self) -> Code
        ensures { told_code result ≡ beside_of self }
    {
        match self {
            NtsError::UnexpectedEof => Code::None,
            NtsError::InvalidData => Code::None,
            NtsError::UnrecognizedCriticalRecord => Code::None,
            NtsError::Invalid => Code::None,
            NtsError::AeadNotSupported(algorithm) => Code::Number(algorithm.0),
            NtsError::IncorrectSizedKey => Code::None,
            NtsError::TableFull => Code::None,
            NtsError::InvalidInput => Code::None,
            NtsError::InvalidValue => Code::None,
            NtsError::OutputTooShort => Code::None,
            NtsError::Error(code) => Code::Number(code.0),
            NtsError::UnknownWarning(code) => Code::Number(code.0),
            NtsError::NoOverlappingProtocol => Code::None,
            NtsError::NoOverlappingAlgorithm => Code::None,
            NtsError::NoCookie => Code::None,
            NtsError::BufferFull => Code::None,
            NtsError::ProtocolNotOffered(protocol) => Code::Protocol(protocol),
            NtsError::AeadNotOffered(algorithm) => Code::Algorithm(algorithm),
            NtsError::NotAllowed => Code::None,
        }
    }
}
