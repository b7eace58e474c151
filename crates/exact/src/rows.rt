// The numbers of exact rows: bits 15:0 what the upper half of the first token is, the size in its place and nothing else; above it the versions, each
// at its rank; the kind of the operands; the class; the place of the first operand.
pub(crate) const NO_ROW: u64 = 0xFFFF;

pub(crate) const SIZE: u64 = 0x100;

pub(crate) const VERSION: u64 = 0x1_0000;

pub(crate) const KIND: u64 = 0x10_0000;

pub(crate) const KINDS: u64 = 16;

pub(crate) const CLASS: u64 = 0x100_0000;

pub(crate) const FIRST: u64 = 0x1000_0000;

// The versions that list an opcode.
const ALL: u64 = 0xF * VERSION;

const VERTEX: u64 = 0x3 * VERSION;

const PIXEL: u64 = 0xC * VERSION;

const SECOND: u64 = 0x5 * VERSION;

const THIRD: u64 = 0xA * VERSION;

const BUT_P2: u64 = 0xB * VERSION;

const P3_ALONE: u64 = 0x8 * VERSION;

// The kinds, by specs/Exact.antt: no operand; a free destination and one, two or three free sources; a sampler behind a free destination and source;
// one source of one type; a destination of one type and raw operands.
const PLAIN: u64 = CLASS;

const NONE: u64 = KIND;

const D: u64 = PLAIN + FIRST * places::FREE_DESTINATION;

const DS: u64 = D + 2 * SIZE + 2 * KIND;

const DSS: u64 = D + 3 * SIZE + 3 * KIND;

const DSSS: u64 = D + 4 * SIZE + 4 * KIND;

const SAMPLED: u64 = D + 3 * SIZE + 5 * KIND;

const SOURCE: u64 = SIZE + 6 * KIND + FIRST * places::SOURCE;

const LABEL: u64 = SOURCE + 18 * FIRST;

const CONSTANT: u64 = PLAIN + 7 * KIND + FIRST * places::DESTINATION;

// The rows.
pub(crate) const NONE_ALL: u64 = PLAIN + NONE + ALL;

pub(crate) const DS_ALL: u64 = DS + ALL;

pub(crate) const DS_VERTEX: u64 = DS + VERTEX;

pub(crate) const DS_P3: u64 = DS + P3_ALONE;

pub(crate) const DSS_ALL: u64 = DSS + ALL;

pub(crate) const DSS_VERTEX: u64 = DSS + VERTEX;

pub(crate) const DSSS_ALL: u64 = DSSS + ALL;

pub(crate) const DSSS_VERTEX: u64 = DSSS + VERTEX;

pub(crate) const DSSS_PIXEL: u64 = DSSS + PIXEL;

pub(crate) const SINCOS_SECOND: u64 = DSSS + SECOND;

pub(crate) const TEX_PIXEL: u64 = SAMPLED + PIXEL;

pub(crate) const TEXLDL_THIRD: u64 = SAMPLED + THIRD;

pub(crate) const CALL_BUT_P2: u64 = LABEL + PLAIN + BUT_P2;

pub(crate) const LABEL_BUT_P2: u64 = LABEL + 3 * CLASS + BUT_P2;

pub(crate) const REP_BUT_P2: u64 = SOURCE + 7 * FIRST + 7 * CLASS + BUT_P2;

pub(crate) const BREAKP_THIRD: u64 = SOURCE + 19 * FIRST + 2 * CLASS + THIRD;

pub(crate) const RET_BUT_P2: u64 = NONE + 4 * CLASS + BUT_P2;

pub(crate) const ENDLOOP_BUT_P2: u64 = NONE + 10 * CLASS + BUT_P2;

pub(crate) const ENDREP_BUT_P2: u64 = NONE + 11 * CLASS + BUT_P2;

pub(crate) const ELSE_BUT_P2: u64 = NONE + 8 * CLASS + BUT_P2;

pub(crate) const ENDIF_BUT_P2: u64 = NONE + 9 * CLASS + BUT_P2;

pub(crate) const BREAK_THIRD: u64 = NONE + 2 * CLASS + THIRD;

pub(crate) const DEF_ALL: u64 = CONSTANT + 2 * FIRST + 5 * SIZE + ALL;

pub(crate) const DEFI_BUT_P2: u64 = CONSTANT + 7 * FIRST + 5 * SIZE + BUT_P2;

pub(crate) const DEFB_BUT_P2: u64 = CONSTANT + 14 * FIRST + 2 * SIZE + BUT_P2;
