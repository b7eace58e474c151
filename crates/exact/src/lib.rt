// Exact rows: the one first token that an opcode has where no operand is relative, no predicate is there and the controls are zero.
#![tactic(auto)]

mod rows;

ghost use Rattle.std.specs.Prelude.{◌≡◌, eqb};
ghost use Rattle.exact.specs.Exact.{exact_row, row_in, upper_in, size_in, listed_in, kind_in, kind_by, exact_class, first_place};
ghost use Rattle.versions.specs.Rows.{rank};

use paper::Version;

// The exact row of an opcode in the versions with sizes; NO_ROW, which no version lists, where its operands are of no kind. One arm for each opcode, and
// no Option: only so does it become one table in memory (with Some and None two: 25.1 instructions a token for 24.1 on real mix, vs_2_0).
pub fn row_of(opcode: u32) -> u64
    ensures { result ≡ exact_row opcode }
{
    match opcode {
        0 => rows::NONE_ALL, // NOP
        1 => rows::DS_ALL, // MOV
        2 => rows::DSS_ALL, // ADD
        3 => rows::DSS_ALL, // SUB
        4 => rows::DSSS_ALL, // MAD
        5 => rows::DSS_ALL, // MUL
        6 => rows::DS_ALL, // RCP
        7 => rows::DS_ALL, // RSQ
        8 => rows::DSS_ALL, // DP3
        9 => rows::DSS_ALL, // DP4
        10 => rows::DSS_ALL, // MIN
        11 => rows::DSS_ALL, // MAX
        12 => rows::DSS_VERTEX, // SLT
        13 => rows::DSS_VERTEX, // SGE
        14 => rows::DS_ALL, // EXP
        15 => rows::DS_ALL, // LOG
        16 => rows::DS_VERTEX, // LIT
        17 => rows::DSS_VERTEX, // DST
        18 => rows::DSSS_ALL, // LRP
        19 => rows::DS_ALL, // FRC
        20 => rows::DSS_ALL, // M4x4
        21 => rows::DSS_ALL, // M4x3
        22 => rows::DSS_ALL, // M3x4
        23 => rows::DSS_ALL, // M3x3
        24 => rows::DSS_ALL, // M3x2
        25 => rows::CALL_BUT_P2, // CALL
        28 => rows::RET_BUT_P2, // RET
        29 => rows::ENDLOOP_BUT_P2, // ENDLOOP
        30 => rows::LABEL_BUT_P2, // LABEL
        32 => rows::DSS_ALL, // POW
        33 => rows::DSS_ALL, // CRS
        34 => rows::DSSS_VERTEX, // SGN
        35 => rows::DS_ALL, // ABS
        36 => rows::DS_ALL, // NRM
        37 => rows::SINCOS_SECOND, // SINCOS
        38 => rows::REP_BUT_P2, // REP
        39 => rows::ENDREP_BUT_P2, // ENDREP
        42 => rows::ELSE_BUT_P2, // ELSE
        43 => rows::ENDIF_BUT_P2, // ENDIF
        44 => rows::BREAK_THIRD, // BREAK
        47 => rows::DEFB_BUT_P2, // DEFB
        48 => rows::DEFI_BUT_P2, // DEFI
        66 => rows::TEX_PIXEL, // TEX
        78 => rows::DS_VERTEX, // EXPP
        79 => rows::DS_VERTEX, // LOGP
        81 => rows::DEF_ALL, // DEF
        88 => rows::DSSS_PIXEL, // CMP
        90 => rows::DSSS_PIXEL, // DP2ADD
        91 => rows::DS_P3, // DSX
        92 => rows::DS_P3, // DSY
        95 => rows::TEXLDL_THIRD, // TEXLDL
        96 => rows::BREAKP_THIRD, // BREAKP
        _ => rows::NO_ROW,
    }
}

// The exact row of an opcode, if the version lists it.
pub fn row_in(version: Version, opcode: u32) -> Option<u64>
    ensures { result ≡ row_in version opcode }
{
    let row = row_of(opcode);
    lists(row, version).then_some(row)
}

// Where the versions begin in a row.
const VERSIONS: u32 = 16;

// The kinds of operands: none; a free destination and one, two or three free sources; a sampler behind a free destination and source; one source of one
// type; a destination of one type and raw operands; any other number, as NO_ROW has.
#[derive(Clone, Copy, PartialEq, Eq)]
pub enum Kind {
    Empty,
    Ds,
    Dss,
    Dsss,
    Sampled,
    Source,
    Constant,
    Other(u64),
}

// The place of a sampler.
pub const SAMPLER: u64 = places::SOURCE + 10;

// The fields of a row: what the upper half of the first token is; the size in it; whether a version lists it; the kind of the operands; the number of the
// class; the place of the first operand.
pub fn upper_in(row: u64) -> u32
    ensures { result ≡ upper_in row }
{
    (row % rows::VERSION) as u32
}

pub fn size_in(row: u64) -> u32
    ensures { result ≡ size_in row }
{
    (row / rows::SIZE % rows::SIZE) as u32
}

pub fn lists(row: u64, version: Version) -> bool
    ensures { result ≡ eqb (listed_in row (rank version)) 1 }
{
    (row >> (versions::rank_of(version) + VERSIONS)) % 2 == 1
}

pub fn kind_in(row: u64) -> Kind
    ensures { result ≡ kind_by (kind_in row) }
{
    match row / rows::KIND % rows::KINDS {
        1 => Kind::Empty,
        2 => Kind::Ds,
        3 => Kind::Dss,
        4 => Kind::Dsss,
        5 => Kind::Sampled,
        6 => Kind::Source,
        7 => Kind::Constant,
        other => Kind::Other(other),
    }
}

pub fn class_in(row: u64) -> u64
    ensures { result ≡ exact_class row }
{
    row / rows::CLASS % rows::KINDS
}

pub fn first_in(row: u64) -> u64
    ensures { result ≡ first_place row }
{
    row / rows::FIRST
}
