// Uniform rows: the opcodes whose operands are a destination and sources that are all of one kind, which most are.
#![tactic(auto)]

mod cells;

ghost use Rattle.std.specs.Prelude.{◌≡◌};
ghost use Rattle.uniform.specs.Uniform.{free_count, row_by, first_row};
ghost use Rattle.uniform.specs.Cells.{free_cells, first_cells};

use paper::Version;

// How many operands there are, at least one, and the register types that the destination and the sources may have, as sets: each raises its own bit.
#[derive(Clone, Copy)]
pub struct Row {
    pub count: u32,
    pub written: u32,
    pub read: u32,
}

// The operands of an opcode whose places are all free, and which versions with sizes have them so; 0 if there are none.
fn free_cells(opcode: u32) -> u32
    ensures { result ≡ free_cells opcode }
{
    match opcode {
        1 => cells::DS_ALL, // MOV
        2 => cells::DSS_ALL, // ADD
        3 => cells::DSS_ALL, // SUB
        4 => cells::DSSS_ALL, // MAD
        5 => cells::DSS_ALL, // MUL
        6 => cells::DS_ALL, // RCP
        7 => cells::DS_ALL, // RSQ
        8 => cells::DSS_ALL, // DP3
        9 => cells::DSS_ALL, // DP4
        10 => cells::DSS_ALL, // MIN
        11 => cells::DSS_ALL, // MAX
        12 => cells::DSS_VERTEX, // SLT
        13 => cells::DSS_VERTEX, // SGE
        14 => cells::DS_ALL, // EXP
        15 => cells::DS_ALL, // LOG
        16 => cells::DS_VERTEX, // LIT
        17 => cells::DSS_VERTEX, // DST
        18 => cells::DSSS_ALL, // LRP
        19 => cells::DS_ALL, // FRC
        20 => cells::DSS_ALL, // M4x4
        21 => cells::DSS_ALL, // M4x3
        22 => cells::DSS_ALL, // M3x4
        23 => cells::DSS_ALL, // M3x3
        24 => cells::DSS_ALL, // M3x2
        32 => cells::DSS_ALL, // POW
        33 => cells::DSS_ALL, // CRS
        34 => cells::DSSS_VERTEX, // SGN
        35 => cells::DS_ALL, // ABS
        36 => cells::DS_ALL, // NRM
        78 => cells::DS_VERTEX, // EXPP
        79 => cells::DS_VERTEX, // LOGP
        88 => cells::DSSS_PIXEL, // CMP
        90 => cells::DSSS_PIXEL, // DP2ADD
        91 => cells::DS_P3, // DSX
        92 => cells::DS_P3, // DSY
        _ => 0,
    }
}

// How many operands an opcode has in a version with sizes, if their places are free.
pub fn free_count(version: Version, opcode: u32) -> Option<u32>
    ensures { result ≡ free_count version opcode }
{
    let rank = versions::rank_of(version);
    let cells = free_cells(opcode);
    if (cells >> (rank + cells::VERSIONS)) % 2 == 0 {
        return None;
    }
    Some(cells % cells::COUNTS)
}

// The cells of an opcode in the versions without sizes: a digit for each, the number of its row.
fn first_cells(opcode: u32) -> u32
    ensures { result ≡ first_cells opcode }
{
    match opcode {
        1 => cells::MOV, // MOV
        2 => cells::DSS, // ADD
        3 => cells::DSS, // SUB
        4 => cells::DSSS, // MAD
        5 => cells::DSS, // MUL
        6 => cells::VERTEX_DS, // RCP
        7 => cells::VERTEX_DS, // RSQ
        8 => cells::DSS, // DP3
        9 => cells::DSS_LATER, // DP4
        10 => cells::VERTEX_DSS, // MIN
        11 => cells::VERTEX_DSS, // MAX
        12 => cells::VERTEX_DSS, // SLT
        13 => cells::VERTEX_DSS, // SGE
        14 => cells::VERTEX_DS, // EXP
        15 => cells::VERTEX_DS, // LOG
        16 => cells::VERTEX_DS, // LIT
        17 => cells::VERTEX_DSS, // DST
        18 => cells::PIXEL_DSSS, // LRP
        19 => cells::VERTEX_DS, // FRC
        20 => cells::VERTEX_DSS, // M4x4
        21 => cells::VERTEX_DSS, // M4x3
        22 => cells::VERTEX_DSS, // M3x4
        23 => cells::VERTEX_DSS, // M3x3
        24 => cells::VERTEX_DSS, // M3x2
        64 => cells::TEXCOORD, // TEXCOORD
        65 => cells::KILL, // TEXKILL
        66 => cells::TEX, // TEX
        67 => cells::TT, // TEXBEM
        68 => cells::TT, // TEXBEML
        69 => cells::TT, // TEXREG2AR
        70 => cells::TT, // TEXREG2GB
        71 => cells::TT, // TEXM3x2PAD
        72 => cells::TT, // TEXM3x2TEX
        73 => cells::TT, // TEXM3x3PAD
        74 => cells::TT, // TEXM3x3TEX
        77 => cells::TT, // TEXM3x3VSPEC
        78 => cells::VERTEX_DS, // EXPP
        79 => cells::VERTEX_DS, // LOGP
        80 => cells::LATE_DSSS, // CND
        82 => cells::TT_LATER, // TEXREG2RGB
        83 => cells::TT_LATER, // TEXDP3TEX
        84 => cells::TT_LAST, // TEXM3x2DEPTH
        85 => cells::TT_LATER, // TEXDP3
        86 => cells::TT_LATER, // TEXM3x3
        87 => cells::LATE_D, // TEXDEPTH
        88 => cells::DSSS_LATER, // CMP
        _ => 0,
    }
}

// The rows by number.
#[tactic(auto, unfolding(crate::specs::Uniform::row_by))]
fn row_by(number: u32) -> Option<Row>
    ensures { result ≡ row_by number }
{
    match number {
        cells::V_MOV => Some(Row {
            count: 2,
            written: 0b111_1001,
            read: cells::VERTEX_READ,
        }),
        cells::V_DS => Some(Row {
            count: 2,
            written: 0b111_0001,
            read: cells::VERTEX_READ,
        }),
        cells::V_DSS => Some(Row {
            count: 3,
            written: 0b111_0001,
            read: cells::VERTEX_READ,
        }),
        cells::V_DSSS => Some(Row {
            count: 4,
            written: 0b111_0001,
            read: cells::VERTEX_READ,
        }),
        cells::E_DS => Some(Row {
            count: 2,
            written: 0b1001,
            read: 0b1111,
        }),
        cells::E_DSS => Some(Row {
            count: 3,
            written: 0b1001,
            read: 0b1111,
        }),
        cells::E_DSSS => Some(Row {
            count: 4,
            written: 0b1001,
            read: 0b1111,
        }),
        cells::E_T => Some(Row {
            count: 1,
            written: 0b1000,
            read: 0,
        }),
        cells::E_KILL => Some(Row {
            count: 1,
            written: 0b1001,
            read: 0,
        }),
        cells::E_TT => Some(Row {
            count: 2,
            written: 0b1000,
            read: 0b1000,
        }),
        cells::L_D => Some(Row {
            count: 1,
            written: 1,
            read: 0,
        }),
        cells::L_DS => Some(Row {
            count: 2,
            written: 1,
            read: 0b111,
        }),
        cells::L_DSS => Some(Row {
            count: 3,
            written: 1,
            read: 0b111,
        }),
        cells::L_DSSS => Some(Row {
            count: 4,
            written: 1,
            read: 0b111,
        }),
        cells::L_TEXCOORD => Some(Row {
            count: 2,
            written: 1,
            read: 0b1000,
        }),
        cells::L_TEX => Some(Row {
            count: 2,
            written: 1,
            read: 0b1001,
        }),
        _ => None,
    }
}

// The row of an opcode in a version without sizes; none in another.
pub fn first_row(version: Version, opcode: u32) -> Option<Row>
    ensures { result ≡ first_row version opcode }
{
    let rank = versions::rank_of(version);
    if rank < cells::FIRST {
        return None;
    }
    row_by((first_cells(opcode) >> (cells::DIGIT * (rank - cells::FIRST))) % cells::BASE)
}
