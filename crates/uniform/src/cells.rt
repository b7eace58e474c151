// The numbers of the cells. In a version with sizes: how many operands there are, and above that the versions that have so many, each at its rank.
pub(crate) const COUNTS: u32 = 8;

pub(crate) const VERSIONS: u32 = 3;

const ALL: u32 = 0xF * COUNTS;

const VERTEX: u32 = 0x3 * COUNTS;

const PIXEL: u32 = 0xC * COUNTS;

const P3_ALONE: u32 = 0x8 * COUNTS;

pub(crate) const DS_ALL: u32 = ALL + 2;

pub(crate) const DS_VERTEX: u32 = VERTEX + 2;

pub(crate) const DS_P3: u32 = P3_ALONE + 2;

pub(crate) const DSS_ALL: u32 = ALL + 3;

pub(crate) const DSS_VERTEX: u32 = VERTEX + 3;

pub(crate) const DSSS_ALL: u32 = ALL + 4;

pub(crate) const DSSS_VERTEX: u32 = VERTEX + 4;

pub(crate) const DSSS_PIXEL: u32 = PIXEL + 4;

// In a version without sizes: a digit of this base for each, ps_1_1 lowest, then ps_1_2, ps_1_3, ps_1_4, vs_1_1, as their ranks are.
pub(crate) const BASE: u32 = 32;

pub(crate) const DIGIT: u32 = 5;

pub(crate) const FIRST: u32 = 4;

const LATER: u32 = BASE;

const LAST: u32 = BASE * LATER;

const LATE: u32 = BASE * LAST;

const FIRST_VERTEX: u32 = BASE * LATE;

const EARLY: u32 = 1 + LATER + LAST;

// The digits: the rows of vs_1_1, of ps_1_1 to ps_1_3 and of ps_1_4, in the order of specs/Uniform.antt.
pub(crate) const V_MOV: u32 = 1;

pub(crate) const V_DS: u32 = 2;

pub(crate) const V_DSS: u32 = 3;

pub(crate) const V_DSSS: u32 = 4;

pub(crate) const E_DS: u32 = 5;

pub(crate) const E_DSS: u32 = 6;

pub(crate) const E_DSSS: u32 = 7;

pub(crate) const E_T: u32 = 8;

pub(crate) const E_KILL: u32 = 9;

pub(crate) const E_TT: u32 = 10;

pub(crate) const L_D: u32 = 11;

pub(crate) const L_DS: u32 = 12;

pub(crate) const L_DSS: u32 = 13;

pub(crate) const L_DSSS: u32 = 14;

pub(crate) const L_TEXCOORD: u32 = 15;

pub(crate) const L_TEX: u32 = 16;

// Most sources of vs_1_1.
pub(crate) const VERTEX_READ: u32 = 0b11_1000_0000_0111;

// The cells of an opcode.
pub(crate) const MOV: u32 = EARLY * E_DS + LATE * L_DS + FIRST_VERTEX * V_MOV;

pub(crate) const DSS: u32 = EARLY * E_DSS + LATE * L_DSS + FIRST_VERTEX * V_DSS;

pub(crate) const DSS_LATER: u32 = (LATER + LAST) * E_DSS + LATE * L_DSS + FIRST_VERTEX * V_DSS;

pub(crate) const DSSS: u32 = EARLY * E_DSSS + LATE * L_DSSS + FIRST_VERTEX * V_DSSS;

pub(crate) const DSSS_LATER: u32 = (LATER + LAST) * E_DSSS + LATE * L_DSSS;

pub(crate) const PIXEL_DSSS: u32 = EARLY * E_DSSS + LATE * L_DSSS;

pub(crate) const LATE_DSSS: u32 = LATE * L_DSSS;

pub(crate) const VERTEX_DS: u32 = FIRST_VERTEX * V_DS;

pub(crate) const VERTEX_DSS: u32 = FIRST_VERTEX * V_DSS;

pub(crate) const TEXCOORD: u32 = EARLY * E_T + LATE * L_TEXCOORD;

pub(crate) const KILL: u32 = EARLY * E_KILL + LATE * E_KILL;

pub(crate) const TEX: u32 = EARLY * E_T + LATE * L_TEX;

pub(crate) const TT: u32 = EARLY * E_TT;

pub(crate) const TT_LATER: u32 = (LATER + LAST) * E_TT;

pub(crate) const TT_LAST: u32 = LAST * E_TT;

pub(crate) const LATE_D: u32 = LATE * L_D;
