// The opcodes of every version, looked up: document 01's table, and behind it that of the versions without sizes.
#![tactic(auto)]

mod rows;

ghost use Rattle.std.specs.Prelude.{◌≡◌, true};
ghost use Rattle.paper.specs.Versions.{has_sizes};
ghost use Rattle.shapes.specs.Shape.{shape_of};
ghost use Rattle.opcodes.specs.Rows.{row_of};

use paper::Version;

// The row of an opcode in document 01's table; 0 for one that is in no row. One arm for each opcode: only so does it become one table in memory.
#[tactic(auto, using(crate::proofs::Table::no_row_lem), unfolding(paper::specs::OpcodeTable::rows, paper::specs::Places::entry_of, paper::specs::Places::typed_places, paper::specs::Blocks::class_of, paper::specs::Blocks::classes, crate::specs::Rows::row_of))]
fn row_of(opcode: u32) -> u64
    ensures { result ≡ row_of opcode }
{
    match opcode {
        0 => rows::NONE_ALL, // NOP
        1 => rows::DS_ALL, // MOV
        2 => rows::DSS_ALL, // ADD
        3 => rows::DSS_ALL, // SUB
        4 => rows::DSSS_ALL, // MAD
        5 => rows::DSS_ALL, // MUL
        6 => rows::DS_ALL, // RCP
        7 => rows::DS_ALL, // RSQ
        8 => rows::DSS_ALL, // DP3
        9 => rows::DSS_ALL, // DP4
        10 => rows::DSS_ALL, // MIN
        11 => rows::DSS_ALL, // MAX
        12 => rows::DSS_VERTEX, // SLT
        13 => rows::DSS_VERTEX, // SGE
        14 => rows::DS_ALL, // EXP
        15 => rows::DS_ALL, // LOG
        16 => rows::DS_VERTEX, // LIT
        17 => rows::DSS_VERTEX, // DST
        18 => rows::DSSS_ALL, // LRP
        19 => rows::DS_ALL, // FRC
        20 => rows::DSS_ALL, // M4x4
        21 => rows::DSS_ALL, // M4x3
        22 => rows::DSS_ALL, // M3x4
        23 => rows::DSS_ALL, // M3x3
        24 => rows::DSS_ALL, // M3x2
        25 => rows::CALL_BUT_P2, // CALL
        26 => rows::CALLNZ_BUT_P2, // CALLNZ
        27 => rows::LOOP_BUT_P2, // LOOP
        28 => rows::RET_BUT_P2, // RET
        29 => rows::ENDLOOP_BUT_P2, // ENDLOOP
        30 => rows::LABEL_BUT_P2, // LABEL
        31 => rows::DCL_ALL, // DCL
        32 => rows::DSS_ALL, // POW
        33 => rows::DSS_ALL, // CRS
        34 => rows::DSSS_VERTEX, // SGN
        35 => rows::DS_ALL, // ABS
        36 => rows::DS_ALL, // NRM
        37 => rows::SINCOS_SECOND, // SINCOS
        38 => rows::REP_BUT_P2, // REP
        39 => rows::ENDREP_BUT_P2, // ENDREP
        40 => rows::IF_BUT_P2, // IF
        41 => rows::IFC_THIRD, // IFC
        42 => rows::ELSE_BUT_P2, // ELSE
        43 => rows::ENDIF_BUT_P2, // ENDIF
        44 => rows::BREAK_THIRD, // BREAK
        45 => rows::BREAKC_THIRD, // BREAKC
        46 => rows::MOVA_VERTEX, // MOVA
        47 => rows::DEFB_BUT_P2, // DEFB
        48 => rows::DEFI_BUT_P2, // DEFI
        65 => rows::TEXKILL_PIXEL, // TEXKILL
        66 => rows::TEX_PIXEL, // TEX
        78 => rows::DS_VERTEX, // EXPP
        79 => rows::DS_VERTEX, // LOGP
        81 => rows::DEF_ALL, // DEF
        88 => rows::DSSS_PIXEL, // CMP
        90 => rows::DSSS_PIXEL, // DP2ADD
        91 => rows::DS_P3, // DSX
        92 => rows::DS_P3, // DSY
        93 => rows::TEXLDD_P3, // TEXLDD
        94 => rows::SETP_THIRD, // SETP
        95 => rows::TEXLDL_THIRD, // TEXLDL
        96 => rows::BREAKP_THIRD, // BREAKP
        _ => 0,
    }
}

// The shape of an opcode in a version of document 01.
fn base_shape(version: Version, opcode: u32) -> u64
    requires { has_sizes version ≡ true }
    ensures { result ≡ shape_of version opcode }
{
    let rank = versions::rank_of(version);
    let predicates = versions::has_predicates(version);
    let row = row_of(opcode);
    if (row >> rank) % 2 == 0 {
        // SINCOS: "DSSS; in V3 P3 DS"
        if (opcode == 37) & predicates {
            return rows::SINCOS_THIRD / rows::SHAPE;
        }
        return 0;
    }
    let shape = row / rows::SHAPE;
    if predicates {
        return shape;
    }
    // "predicated: only V3 and P3": the bit is left out
    shape / shapes::RULE * shapes::RULE + shape % shapes::PREDICABLE
}

// The shape of an opcode in a version; 0 where its table does not list it there. It is no Option: a row of the tables is 0 there too, and a
// shape of 0 has no places, so that who asks for the places alone has one way for both.
pub fn shape_of(version: Version, opcode: u32) -> u64
    ensures { result ≡ shape_of version opcode }
{
    if versions::has_sizes(version) {
        base_shape(version, opcode)
    } else {
        first_opcodes::shape_of(version, opcode)
    }
}
