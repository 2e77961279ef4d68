// The refusals: one case each, and its number and place.
#![tactic(auto)]

ghost use Rattle.std.specs.Prelude.{◌≡◌};
ghost use Rattle.refusals.specs.Refusals.{number_of, place_of, owed};

// Why an entry gives nothing: the error of every answer. A case holds its place where the rules' table has one that is not 0.
#[derive(Clone, Copy, Debug, PartialEq, Eq)]
pub enum Refusal {
    // 1: length above the buffer or 65,536, or below 36, embedded 68
    BadLength,
    // 2: header not sound
    BadHeader,
    // 3: structure: unknown type, length, count, or past the end; its start
    BadStructure(usize),
    // 4: group deeper than 8; its start
    TooDeep(usize),
    // 5: bytes left over; the first one
    LeftOver(usize),
    // 6: not a trace-route header
    NoTraceHeader,
    // 7: TraceRoute group absent or repeated
    NoTraceRoute,
    // 8: attribute absent, repeated, mistyped or out of range
    BadAttribute,
    // 9: lent Activity group not sound
    BadGroup,
    // 10: MQFB_MAX_ACTIVITIES: limit not 0, and the counters' sum plus one above it; whether a reply is owed
    MaxActivities(bool),
    // 11: the counter to raise is 2^31 - 1
    CounterFull,
    // 12: no room: new length above the buffer or 65,536
    NoRoom,
    // 13: report due and its buffer too short
    ReportTooShort,
    // 14: MQFB_UNSUPPORTED_DELIVERY
    UnsupportedDelivery,
    // 15: MQFB_UNSUPPORTED_FORWARDING
    UnsupportedForwarding,
    // 16: MQFB_NOT_FORWARDED
    NotForwarded,
    // 17: sheet: number out of range or two equal
    BadSheet,
    // 18: embedded header: identifier, Version, or a StrucLength below 68, above the message or no multiple of 4
    BadEmbeddedHeader,
}

impl Refusal {
    // Its number.
    pub fn number(self) -> u32
        ensures { result ≡ number_of self }
    {
        match self {
            Refusal::BadLength => 1,
            Refusal::BadHeader => 2,
            Refusal::BadStructure(_) => 3,
            Refusal::TooDeep(_) => 4,
            Refusal::LeftOver(_) => 5,
            Refusal::NoTraceHeader => 6,
            Refusal::NoTraceRoute => 7,
            Refusal::BadAttribute => 8,
            Refusal::BadGroup => 9,
            Refusal::MaxActivities(_) => 10,
            Refusal::CounterFull => 11,
            Refusal::NoRoom => 12,
            Refusal::ReportTooShort => 13,
            Refusal::UnsupportedDelivery => 14,
            Refusal::UnsupportedForwarding => 15,
            Refusal::NotForwarded => 16,
            Refusal::BadSheet => 17,
            Refusal::BadEmbeddedHeader => 18,
        }
    }

    // Its place in the message, 0 where the table has 0.
    pub fn place(self) -> usize
        ensures { result ≡ place_of self }
    {
        match self {
            Refusal::BadStructure(at) | Refusal::TooDeep(at) | Refusal::LeftOver(at) => at,
            _ => 0,
        }
    }

    // Whether a reply is owed.
    pub fn reply_owed(self) -> bool
        ensures { result ≡ owed self }
    {
        match self {
            Refusal::MaxActivities(reply) => reply,
            _ => false,
        }
    }
}
