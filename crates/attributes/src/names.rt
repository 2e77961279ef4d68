// The eight attributes by name: their positions in a sheet, in a list of values and in a list of places; the values that IBM
// has names for; and the identifiers of the two groups of a trace. The three are lists of eight and no structs: C hands sheet and
// values so, and the rules speak of such lists.
pub const DETAIL: usize = 0;

pub const RECORDED_ACTIVITIES: usize = 1;

pub const UNRECORDED_ACTIVITIES: usize = 2;

pub const DISCONTINUITY_COUNT: usize = 3;

pub const MAX_ACTIVITIES: usize = 4;

pub const ACCUMULATE: usize = 5;

pub const FORWARD: usize = 6;

pub const DELIVER: usize = 7;

pub const MQROUTE_DETAIL_LOW: u32 = 2;

pub const MQROUTE_DETAIL_MEDIUM: u32 = 8;

pub const MQROUTE_DETAIL_HIGH: u32 = 32;

pub const MQROUTE_ACCUMULATE_NONE: u32 = 0x10003;

pub const MQROUTE_ACCUMULATE_IN_MSG: u32 = 0x10004;

pub const MQROUTE_ACCUMULATE_AND_REPLY: u32 = 0x10005;

pub const MQROUTE_FORWARD_ALL: u32 = 0x100;

pub const MQROUTE_FORWARD_IF_SUPPORTED: u32 = 0x200;

pub const MQROUTE_DELIVER_YES: u32 = 0x1000;

pub const MQROUTE_DELIVER_NO: u32 = 0x2000;

// Options of Forward and Deliver that may not be passed over: IBM's MQROUTE_FORWARD_REJ_UNSUP_MASK and
// MQROUTE_DELIVER_REJ_UNSUP_MASK.
pub const REJECT_UNSUPPORTED: u32 = 0xFFFF0000;

// The TraceRoute group, which holds the eight attributes.
pub const MQGACF_TRACE_ROUTE: u32 = 8003;

// An Activity group.
pub const MQGACF_ACTIVITY: u32 = 8005;
