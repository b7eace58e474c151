// The opcodes of the versions without sizes, looked up: document 02, Q-4. One arm for each opcode: only so does a table become one in memory.
#![tactic(auto)]

mod rows;

ghost use Rattle.std.specs.Prelude.{◌≡◌, ◌<◌};
ghost use Rattle.paper.specs.Notation.{pick};
ghost use Rattle.paper.specs.Versions.{has_sizes};
ghost use Rattle.paper.specs.declared.Version.TheVariants.{V1, P14};
ghost use Rattle.shapes.specs.Shape.{shape_of};
ghost use Rattle.first_opcodes.specs.Rows.{early_row, early_shape};

use paper::Version;

// vs_1_1
#[tactic(auto, using(crate::proofs::Tables::no_vertex), unfolding(paper::specs::FirstVersions::first_rows, paper::specs::Places::entry_of, paper::specs::Blocks::class_of, paper::specs::Blocks::classes, shapes::specs::Shape::shape_of))]
fn vertex_shape(opcode: u32) -> u64
    ensures { result ≡ shape_of V1 opcode }
{
    match opcode {
        0 => rows::VERTEX_NONE, // NOP
        1 => rows::VERTEX_MOV, // MOV
        2 => rows::VERTEX_DSS, // ADD
        3 => rows::VERTEX_DSS, // SUB
        4 => rows::VERTEX_DSSS, // MAD
        5 => rows::VERTEX_DSS, // MUL
        6 => rows::VERTEX_DS, // RCP
        7 => rows::VERTEX_DS, // RSQ
        8 => rows::VERTEX_DSS, // DP3
        9 => rows::VERTEX_DSS, // DP4
        10 => rows::VERTEX_DSS, // MIN
        11 => rows::VERTEX_DSS, // MAX
        12 => rows::VERTEX_DSS, // SLT
        13 => rows::VERTEX_DSS, // SGE
        14 => rows::VERTEX_DS, // EXP
        15 => rows::VERTEX_DS, // LOG
        16 => rows::VERTEX_DS, // LIT
        17 => rows::VERTEX_DSS, // DST
        19 => rows::VERTEX_DS, // FRC
        20 => rows::VERTEX_DSS, // M4x4
        21 => rows::VERTEX_DSS, // M4x3
        22 => rows::VERTEX_DSS, // M3x4
        23 => rows::VERTEX_DSS, // M3x3
        24 => rows::VERTEX_DSS, // M3x2
        31 => rows::VERTEX_DCL, // DCL
        78 => rows::VERTEX_DS, // EXPP
        79 => rows::VERTEX_DS, // LOGP
        81 => rows::VERTEX_DEF, // DEF
        _ => 0,
    }
}

// ps_1_1 to ps_1_3: a shape, and which of the first two have it
#[tactic(auto, using(crate::proofs::Tables::no_early), unfolding(paper::specs::FirstVersions::first_rows, paper::specs::Places::entry_of, paper::specs::Blocks::class_of, paper::specs::Blocks::classes, shapes::specs::Shape::shape_of, crate::specs::Rows::early_row))]
fn early_row(opcode: u32) -> u64
    ensures { result ≡ early_row opcode }
{
    match opcode {
        0 => rows::EARLY_NONE, // NOP
        1 => rows::EARLY_DS, // MOV
        2 => rows::EARLY_DSS, // ADD
        3 => rows::EARLY_DSS, // SUB
        4 => rows::EARLY_DSSS, // MAD
        5 => rows::EARLY_DSS, // MUL
        8 => rows::EARLY_DSS, // DP3
        9 => rows::EARLY_DSS_LATER, // DP4
        18 => rows::EARLY_DSSS, // LRP
        64 => rows::EARLY_T, // TEXCOORD
        65 => rows::EARLY_KILL, // TEXKILL
        66 => rows::EARLY_T, // TEX
        67 => rows::EARLY_TT, // TEXBEM
        68 => rows::EARLY_TT, // TEXBEML
        69 => rows::EARLY_TT, // TEXREG2AR
        70 => rows::EARLY_TT, // TEXREG2GB
        71 => rows::EARLY_TT, // TEXM3x2PAD
        72 => rows::EARLY_TT, // TEXM3x2TEX
        73 => rows::EARLY_TT, // TEXM3x3PAD
        74 => rows::EARLY_TT, // TEXM3x3TEX
        76 => rows::EARLY_SPEC, // TEXM3x3SPEC
        77 => rows::EARLY_TT, // TEXM3x3VSPEC
        80 => rows::EARLY_CND, // CND
        81 => rows::EARLY_DEF, // DEF
        82 => rows::EARLY_TT_LATER, // TEXREG2RGB
        83 => rows::EARLY_TT_LATER, // TEXDP3TEX
        84 => rows::EARLY_TT_LAST, // TEXM3x2DEPTH
        85 => rows::EARLY_TT_LATER, // TEXDP3
        86 => rows::EARLY_TT_LATER, // TEXM3x3
        88 => rows::EARLY_DSSS_LATER, // CMP
        _ => 0,
    }
}

// ps_1_4
#[tactic(auto, using(crate::proofs::Tables::no_late), unfolding(paper::specs::FirstVersions::first_rows, paper::specs::Places::entry_of, paper::specs::Blocks::class_of, paper::specs::Blocks::classes, shapes::specs::Shape::shape_of))]
fn late_shape(opcode: u32) -> u64
    ensures { result ≡ shape_of P14 opcode }
{
    match opcode {
        0 => rows::LATE_NONE, // NOP
        1 => rows::LATE_DS, // MOV
        2 => rows::LATE_DSS, // ADD
        3 => rows::LATE_DSS, // SUB
        4 => rows::LATE_DSSS, // MAD
        5 => rows::LATE_DSS, // MUL
        8 => rows::LATE_DSS, // DP3
        9 => rows::LATE_DSS, // DP4
        18 => rows::LATE_DSSS, // LRP
        64 => rows::LATE_TEXCOORD, // TEXCOORD
        65 => rows::LATE_KILL, // TEXKILL
        66 => rows::LATE_TEX, // TEX
        80 => rows::LATE_DSSS, // CND
        81 => rows::LATE_DEF, // DEF
        87 => rows::LATE_D, // TEXDEPTH
        88 => rows::LATE_DSSS, // CMP
        89 => rows::LATE_BEM, // BEM
        paper::PHASE => rows::LATE_PHASE, // PHASE
        _ => 0,
    }
}

// The same for the one of the three whose bit of a row this is.
fn early_shape(rank: u32, opcode: u32) -> u64
    requires { rank < 3 }
    ensures { result ≡ early_shape (early_row opcode) rank }
{
    let row = early_row(opcode);
    if (row >> rank) % 2 == 0 {
        return 0;
    }
    row / rows::SHAPE
}

// The shape of an opcode in a version without sizes; 0 where the table does not list it there, and in any other version.
#[tactic(auto, using(crate::proofs::Tables::early_shapes))]
pub fn shape_of(version: Version, opcode: u32) -> u64
    ensures { result ≡ pick (has_sizes version) 0 (shape_of version opcode) }
{
    match version {
        Version::V1 => vertex_shape(opcode),
        Version::P11 => early_shape(0, opcode),
        Version::P12 => early_shape(1, opcode),
        Version::P13 => early_shape(2, opcode),
        Version::P14 => late_shape(opcode),
        _ => 0,
    }
}
