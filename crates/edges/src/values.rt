// The edge values, by their bits. `oracle/src/floats.rs` has the same two tables.

// Given to each function of one argument.
pub const EDGES: [u64; 78] = [
    // the zeros
    0x0000_0000_0000_0000,
    0x8000_0000_0000_0000,
    // the smallest and the largest subnormal and normal
    0x0000_0000_0000_0001,
    0x000F_FFFF_FFFF_FFFF,
    0x0010_0000_0000_0000,
    0x7FEF_FFFF_FFFF_FFFF,
    // the same below zero
    0x8000_0000_0000_0001,
    0x800F_FFFF_FFFF_FFFF,
    0x8010_0000_0000_0000,
    0xFFEF_FFFF_FFFF_FFFF,
    // the infinities and a nan
    0x7FF0_0000_0000_0000,
    0xFFF0_0000_0000_0000,
    0x7FF8_0000_0000_0000,
    // 1, -1, 0.5 and -0.5, each with its neighbours
    0x3FEF_FFFF_FFFF_FFFF,
    0x3FF0_0000_0000_0000,
    0x3FF0_0000_0000_0001,
    0xBFEF_FFFF_FFFF_FFFF,
    0xBFF0_0000_0000_0000,
    0xBFF0_0000_0000_0001,
    0x3FDF_FFFF_FFFF_FFFF,
    0x3FE0_0000_0000_0000,
    0x3FE0_0000_0000_0001,
    0xBFDF_FFFF_FFFF_FFFF,
    0xBFE0_0000_0000_0000,
    0xBFE0_0000_0000_0001,
    // 1.5, -1.5, 2.5 and -2.5, the first with its neighbours
    0x3FF7_FFFF_FFFF_FFFF,
    0x3FF8_0000_0000_0000,
    0x3FF8_0000_0000_0001,
    0xBFF8_0000_0000_0000,
    0x4004_0000_0000_0000,
    0xC004_0000_0000_0000,
    0x400C_0000_0000_0000,
    // 2251799813685247.5 and .75, 2^51, 2251799813685248.5
    0x431F_FFFF_FFFF_FFFE,
    0x431F_FFFF_FFFF_FFFF,
    0x4320_0000_0000_0000,
    0x4320_0000_0000_0001,
    // 4503599627370495.5, 2^52 and its neighbour above, the same below zero
    0x432F_FFFF_FFFF_FFFF,
    0x4330_0000_0000_0000,
    0x4330_0000_0000_0001,
    0xC32F_FFFF_FFFF_FFFF,
    0xC330_0000_0000_0000,
    0xC330_0000_0000_0001,
    // 2^53 with its neighbours, -2^53, 2^63, 2^64
    0x433F_FFFF_FFFF_FFFF,
    0x4340_0000_0000_0000,
    0x4340_0000_0000_0001,
    0xC340_0000_0000_0000,
    0x43E0_0000_0000_0000,
    0x43F0_0000_0000_0000,
    // 0.1, 2, 3, 4 with its neighbours, 9
    0x3FB9_9999_9999_999A,
    0x4000_0000_0000_0000,
    0x4008_0000_0000_0000,
    0x400F_FFFF_FFFF_FFFF,
    0x4010_0000_0000_0000,
    0x4010_0000_0000_0001,
    0x4022_0000_0000_0000,
    // the squares of 67108865 and 94906265, each with its neighbours
    0x4330_0000_0800_0000,
    0x4330_0000_0800_0001,
    0x4330_0000_0800_0002,
    0x433F_FFFF_F8EF_F970,
    0x433F_FFFF_F8EF_F971,
    0x433F_FFFF_F8EF_F972,
    // 1e-300, 1e-160, 1e-15, 1e-12, 1e-6
    0x01A5_6E1F_C2F8_F359,
    0x1EB6_7E9C_127B_6E74,
    0x3CD2_03AF_9EE7_5616,
    0x3D71_9799_812D_EA11,
    0x3EB0_C6F7_A0B5_ED8D,
    // 1e7, 1e15, 1e16, 1e160, 1e300
    0x4163_12D0_0000_0000,
    0x430C_6BF5_2634_0000,
    0x4341_C379_37E0_8000,
    0x6126_C2D4_256F_FCC3,
    0x7E37_E43C_8800_759C,
    // Pi / 2, Pi, 90, 180, -180, 360, 720
    0x3FF9_21FB_5444_2D18,
    0x4009_21FB_5444_2D18,
    0x4056_8000_0000_0000,
    0x4066_8000_0000_0000,
    0xC066_8000_0000_0000,
    0x4076_8000_0000_0000,
    0x4086_8000_0000_0000,
];

// Given to each function of two arguments, each with each.
pub const PAIRED: [u64; 21] = [
    // the zeros, the least subnormals, the least normals
    0x0000_0000_0000_0000,
    0x8000_0000_0000_0000,
    0x0000_0000_0000_0001,
    0x8000_0000_0000_0001,
    0x0010_0000_0000_0000,
    0x8010_0000_0000_0000,
    // 1 with its neighbours, -1, 0.5, 2
    0x3FEF_FFFF_FFFF_FFFF,
    0x3FF0_0000_0000_0000,
    0x3FF0_0000_0000_0001,
    0xBFF0_0000_0000_0000,
    0x3FE0_0000_0000_0000,
    0x4000_0000_0000_0000,
    // 1e-12, -1e7, 180, 2^53
    0x3D71_9799_812D_EA11,
    0xC163_12D0_0000_0000,
    0x4066_8000_0000_0000,
    0x4340_0000_0000_0000,
    // the largest of both signs, the infinities, a nan
    0x7FEF_FFFF_FFFF_FFFF,
    0xFFEF_FFFF_FFFF_FFFF,
    0x7FF0_0000_0000_0000,
    0xFFF0_0000_0000_0000,
    0x7FF8_0000_0000_0000,
];
