// The numbers of the table's rows. A row's number: bits 3:0 the versions, each at its rank; above them the shape that the row has in V3 and P3.
pub(crate) const SHAPE: u64 = 16;

// What an opcode is to the blocks, as `shapes` numbers it.
const PLAIN: u64 = shapes::PLAIN;

const BREAKS: u64 = shapes::LISTED + 2 * shapes::CLASS;

const LABELS: u64 = shapes::LISTED + 3 * shapes::CLASS;

const RETURNS: u64 = shapes::LISTED + 4 * shapes::CLASS;

const OPENS_IF: u64 = shapes::LISTED + 5 * shapes::CLASS;

const OPENS_LOOP: u64 = shapes::LISTED + 6 * shapes::CLASS;

const OPENS_REP: u64 = shapes::LISTED + 7 * shapes::CLASS;

const CLOSES_ELSE: u64 = shapes::LISTED + 8 * shapes::CLASS;

const CLOSES_IF: u64 = shapes::LISTED + 9 * shapes::CLASS;

const CLOSES_LOOP: u64 = shapes::LISTED + 10 * shapes::CLASS;

const CLOSES_REP: u64 = shapes::LISTED + 11 * shapes::CLASS;

// "Bits 23:16 are 1 to 6 for IFC, BREAKC, SETP; 0 to 2 for TEX"
const COMPARISON: u64 = shapes::Rule::Comparison as u64 * shapes::RULE;

const TEXTURE: u64 = shapes::Rule::Texture as u64 * shapes::RULE;

// The table's last column.
const ALL: u64 = 0xF;

const VERTEX: u64 = 0x3;

const PIXEL: u64 = 0xC;

const SECOND: u64 = 0x5;

const THIRD: u64 = 0xA;

const ALL_BUT_P2: u64 = 0xB;

const P3_ALONE: u64 = 0x8;

// The places: D and S are the free ones.
const D: u64 = places::FREE_DESTINATION;

const S: u64 = places::FREE_SOURCE;

const NEXT: u64 = places::BASE;

const SAMPLER: u64 = places::SOURCE + 10;

const LABEL: u64 = places::SOURCE + 18;

const INTEGER: u64 = places::SOURCE + 7;

// The table's second column. Where there is a D, the instruction may be predicated, but for DCL, DEF, DEFI and DEFB. COMPARED serves opcodes
// of two classes: their rows add the class, as CALL's and LABEL's do.
const DS: u64 = PLAIN + shapes::PREDICABLE + D + NEXT * S;

const MOVA: u64 = PLAIN + shapes::PREDICABLE + places::DESTINATION + 3 + NEXT * S;

const DSS: u64 = PLAIN + shapes::PREDICABLE + D + NEXT * (S + NEXT * S);

const SAMPLED: u64 = PLAIN + shapes::PREDICABLE + D + NEXT * (S + NEXT * SAMPLER);

const SETP: u64 = PLAIN
    + COMPARISON
    + shapes::PREDICABLE
    + places::DESTINATION
    + 19
    + NEXT * (S + NEXT * S);

const DSSS: u64 = PLAIN + shapes::PREDICABLE + D + NEXT * (S + NEXT * (S + NEXT * S));

const TEXLDD: u64 = PLAIN
    + shapes::PREDICABLE
    + D
    + NEXT * (S + NEXT * (SAMPLER + NEXT * (S + NEXT * S)));

const TEXKILL: u64 = PLAIN + shapes::PREDICABLE + places::WRITTEN_TEXTURE;

const REP: u64 = OPENS_REP + INTEGER;

const IF: u64 = OPENS_IF + places::CONDITION;

const CALLNZ: u64 = PLAIN + LABEL + NEXT * places::CONDITION;

const LOOP: u64 = OPENS_LOOP + places::SOURCE + 15 + NEXT * INTEGER;

const BREAKP: u64 = BREAKS + places::SOURCE + 19;

const COMPARED: u64 = COMPARISON + S + NEXT * S;

const DCL: u64 = PLAIN + places::USAGE + NEXT * places::DECLARED;

const RRRR: u64 = places::RAW + NEXT * (places::RAW + NEXT * (places::RAW + NEXT * places::RAW));

const DEF: u64 = PLAIN + places::DESTINATION + 2 + NEXT * RRRR;

const DEFI: u64 = PLAIN + places::DESTINATION + 7 + NEXT * RRRR;

const DEFB: u64 = PLAIN + places::DESTINATION + 14 + NEXT * places::RAW;

// The rows.
pub(crate) const NONE_ALL: u64 = SHAPE * PLAIN + ALL;

pub(crate) const DS_ALL: u64 = SHAPE * DS + ALL;

pub(crate) const DS_VERTEX: u64 = SHAPE * DS + VERTEX;

pub(crate) const MOVA_VERTEX: u64 = SHAPE * MOVA + VERTEX;

pub(crate) const DS_P3: u64 = SHAPE * DS + P3_ALONE;

pub(crate) const DSS_ALL: u64 = SHAPE * DSS + ALL;

pub(crate) const DSS_VERTEX: u64 = SHAPE * DSS + VERTEX;

pub(crate) const TEX_PIXEL: u64 = SHAPE * (SAMPLED + TEXTURE) + PIXEL;

pub(crate) const SETP_THIRD: u64 = SHAPE * SETP + THIRD;

pub(crate) const TEXLDL_THIRD: u64 = SHAPE * SAMPLED + THIRD;

pub(crate) const DSSS_ALL: u64 = SHAPE * DSSS + ALL;

pub(crate) const DSSS_VERTEX: u64 = SHAPE * DSSS + VERTEX;

pub(crate) const DSSS_PIXEL: u64 = SHAPE * DSSS + PIXEL;

pub(crate) const SINCOS_SECOND: u64 = SHAPE * DSSS + SECOND;

pub(crate) const SINCOS_THIRD: u64 = SHAPE * DS + THIRD;

pub(crate) const TEXLDD_P3: u64 = SHAPE * TEXLDD + P3_ALONE;

pub(crate) const TEXKILL_PIXEL: u64 = SHAPE * TEXKILL + PIXEL;

pub(crate) const RET_BUT_P2: u64 = SHAPE * RETURNS + ALL_BUT_P2;

pub(crate) const ENDLOOP_BUT_P2: u64 = SHAPE * CLOSES_LOOP + ALL_BUT_P2;

pub(crate) const ENDREP_BUT_P2: u64 = SHAPE * CLOSES_REP + ALL_BUT_P2;

pub(crate) const ELSE_BUT_P2: u64 = SHAPE * CLOSES_ELSE + ALL_BUT_P2;

pub(crate) const ENDIF_BUT_P2: u64 = SHAPE * CLOSES_IF + ALL_BUT_P2;

pub(crate) const CALL_BUT_P2: u64 = SHAPE * (PLAIN + LABEL) + ALL_BUT_P2;

pub(crate) const LABEL_BUT_P2: u64 = SHAPE * (LABELS + LABEL) + ALL_BUT_P2;

pub(crate) const REP_BUT_P2: u64 = SHAPE * REP + ALL_BUT_P2;

pub(crate) const IF_BUT_P2: u64 = SHAPE * IF + ALL_BUT_P2;

pub(crate) const CALLNZ_BUT_P2: u64 = SHAPE * CALLNZ + ALL_BUT_P2;

pub(crate) const LOOP_BUT_P2: u64 = SHAPE * LOOP + ALL_BUT_P2;

pub(crate) const BREAK_THIRD: u64 = SHAPE * BREAKS + THIRD;

pub(crate) const BREAKP_THIRD: u64 = SHAPE * BREAKP + THIRD;

pub(crate) const IFC_THIRD: u64 = SHAPE * (OPENS_IF + COMPARED) + THIRD;

pub(crate) const BREAKC_THIRD: u64 = SHAPE * (BREAKS + COMPARED) + THIRD;

pub(crate) const DCL_ALL: u64 = SHAPE * DCL + ALL;

pub(crate) const DEF_ALL: u64 = SHAPE * DEF + ALL;

pub(crate) const DEFI_BUT_P2: u64 = SHAPE * DEFI + ALL_BUT_P2;

pub(crate) const DEFB_BUT_P2: u64 = SHAPE * DEFB + ALL_BUT_P2;
