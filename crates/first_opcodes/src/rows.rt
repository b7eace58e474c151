// The numbers of the rows. A row of ps_1_1 to ps_1_3: bits 2:0 the versions, above them the shape.
pub(crate) const SHAPE: u64 = 8;

const ALL: u64 = 0b111;

const LATER: u64 = 0b110;

const LAST: u64 = 0b100;

// What every shape of vs_1_1 has, and of the pixel versions: no size is stated, and there may be co-issue. Every opcode but PHASE is plain.
const NO_SIZE: u64 = shapes::Rule::Sizeless as u64 * shapes::RULE;

const VERTEX: u64 = shapes::PLAIN + NO_SIZE;

const PIXEL: u64 = shapes::PLAIN + NO_SIZE + shapes::COISSUE;

const PHASES: u64 = shapes::LISTED + 13 * shapes::CLASS;

const OPERAND: u64 = shapes::UNSTATED;

const NEXT: u64 = places::BASE;

const RRRR: u64 = places::RAW + NEXT * (places::RAW + NEXT * (places::RAW + NEXT * places::RAW));

const DEF: u64 = 5 * OPERAND + places::CONSTANT_WRITTEN + NEXT * RRRR;

// The texture coordinate that is written, and the one that is read; a temporary; a constant.
const TD: u64 = places::DESTINATION + 3;

const TS: u64 = places::SOURCE + 3;

const TEMPORARY: u64 = places::SOURCE;

const CONSTANT: u64 = places::SOURCE + 2;

// vs_1_1
const VD: u64 = places::VERTEX_WRITTEN;

const VS: u64 = places::VERTEX_READ;

pub(crate) const VERTEX_NONE: u64 = VERTEX;

pub(crate) const VERTEX_MOV: u64 = VERTEX + 2 * OPERAND + places::VERTEX_MOVED + NEXT * VS;

pub(crate) const VERTEX_DS: u64 = VERTEX + 2 * OPERAND + VD + NEXT * VS;

pub(crate) const VERTEX_DSS: u64 = VERTEX + 3 * OPERAND + VD + NEXT * (VS + NEXT * VS);

pub(crate) const VERTEX_DSSS: u64 = VERTEX
    + 4 * OPERAND
    + VD
    + NEXT * (VS + NEXT * (VS + NEXT * VS));

pub(crate) const VERTEX_DCL: u64 = VERTEX + 2 * OPERAND + places::USAGE + NEXT * places::DECLARED;

pub(crate) const VERTEX_DEF: u64 = VERTEX + DEF;

// ps_1_1 to ps_1_3
const ED: u64 = places::WRITTEN_TEXTURE;

const ES: u64 = places::EARLY_READ;

const DSS: u64 = PIXEL + 3 * OPERAND + ED + NEXT * (ES + NEXT * ES);

const DSSS: u64 = PIXEL + 4 * OPERAND + ED + NEXT * (ES + NEXT * (ES + NEXT * ES));

const TT: u64 = PIXEL + 2 * OPERAND + TD + NEXT * TS;

pub(crate) const EARLY_NONE: u64 = SHAPE * PIXEL + ALL;

pub(crate) const EARLY_DS: u64 = SHAPE * (PIXEL + 2 * OPERAND + ED + NEXT * ES) + ALL;

pub(crate) const EARLY_DSS: u64 = SHAPE * DSS + ALL;

pub(crate) const EARLY_DSS_LATER: u64 = SHAPE * DSS + LATER;

pub(crate) const EARLY_DSSS: u64 = SHAPE * DSSS + ALL;

pub(crate) const EARLY_DSSS_LATER: u64 = SHAPE * DSSS + LATER;

pub(crate) const EARLY_T: u64 = SHAPE * (PIXEL + OPERAND + TD) + ALL;

pub(crate) const EARLY_KILL: u64 = SHAPE * (PIXEL + OPERAND + places::WRITTEN_TEXTURE) + ALL;

pub(crate) const EARLY_TT: u64 = SHAPE * TT + ALL;

pub(crate) const EARLY_TT_LATER: u64 = SHAPE * TT + LATER;

pub(crate) const EARLY_TT_LAST: u64 = SHAPE * TT + LAST;

pub(crate) const EARLY_SPEC: u64 = SHAPE
    * (PIXEL + 3 * OPERAND + TD + NEXT * (TS + NEXT * CONSTANT))
    + ALL;

pub(crate) const EARLY_CND: u64 = SHAPE
    * (PIXEL + 4 * OPERAND + ED + NEXT * (TEMPORARY + NEXT * (ES + NEXT * ES)))
    + ALL;

pub(crate) const EARLY_DEF: u64 = SHAPE * (PIXEL + DEF) + ALL;

// ps_1_4
const LD: u64 = places::DESTINATION;

const LS: u64 = places::LATE_READ;

pub(crate) const LATE_NONE: u64 = PIXEL;

pub(crate) const LATE_D: u64 = PIXEL + OPERAND + LD;

pub(crate) const LATE_DS: u64 = PIXEL + 2 * OPERAND + LD + NEXT * LS;

pub(crate) const LATE_DSS: u64 = PIXEL + 3 * OPERAND + LD + NEXT * (LS + NEXT * LS);

pub(crate) const LATE_DSSS: u64 = PIXEL + 4 * OPERAND + LD + NEXT * (LS + NEXT * (LS + NEXT * LS));

pub(crate) const LATE_TEXCOORD: u64 = PIXEL + 2 * OPERAND + LD + NEXT * TS;

pub(crate) const LATE_TEX: u64 = PIXEL + 2 * OPERAND + LD + NEXT * places::TEXTURE_READ;

pub(crate) const LATE_KILL: u64 = PIXEL + OPERAND + places::WRITTEN_TEXTURE;

pub(crate) const LATE_BEM: u64 = PIXEL
    + 3 * OPERAND
    + LD
    + NEXT * (places::BUMP_READ + NEXT * TEMPORARY);

pub(crate) const LATE_DEF: u64 = PIXEL + DEF;

pub(crate) const LATE_PHASE: u64 = PHASES + NO_SIZE + shapes::COISSUE;
