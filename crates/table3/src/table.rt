// The table. Two of its cells are printed a digit short.
const BLANK: [u8; 16] = [0; 16];

const KEY: [u8; 16] = [
    0x01, 0x23, 0x45, 0x67, 0x89, 0xab, 0xcd, 0xef, 0x12, 0x34, 0x56, 0x78, 0x9a, 0xbc, 0xde, 0xf0,
];

#[derive(Clone, Copy)]
pub struct Column {
    pub number: usize,
    pub key: [u8; 16],
    pub iv: [u8; 12],
    pub preoutputs: [u64; 5],
}

pub const COLUMN_1: Column = Column {
    number: 1,
    key: BLANK,
    iv: [0; 12],
    preoutputs: [
        0xc020_7f22_1660_650b,
        0x6a95_2ae2_6586_136f,
        0xa090_4140_c862_1cfe,
        0x8660_c0de_c096_9e94,
        0x36f4_ace9_2cf1_ebb7,
    ],
};

pub const COLUMN_2: Column = Column {
    number: 2,
    key: KEY,
    iv: [
        0x01, 0x23, 0x45, 0x67, 0x89, 0xab, 0xcd, 0xef, 0x12, 0x34, 0x56, 0x78,
    ],
    // The second is printed with one e less, 3c07eed89161a4d.
    preoutputs: [
        0xf887_20c1_3f46_e6a4,
        0x3c07_eeed_8916_1a4d,
        0xd73b_d6b8_be8b_6b11,
        0x6879_714e_bb63_0e0a,
        0x4c12_f039_9412_982c,
    ],
};

pub const COLUMN_3: Column = Column {
    number: 3,
    key: BLANK,
    iv: [0x80, 0, 0, 0, 0, 0, 0, 0, 0, 0, 0, 0],
    preoutputs: [
        0x564b_3622_19bd_90e3,
        0x01f2_59cf_52bf_5da9,
        0xdeb1_845b_e699_3abd,
        0x2d3c_77c4_acb9_0e42,
        0x2640_fbd6_e8ae_642a,
    ],
};

pub const COLUMN_4: Column = Column {
    number: 4,
    key: KEY,
    iv: [
        0x81, 0x23, 0x45, 0x67, 0x89, 0xab, 0xcd, 0xef, 0x12, 0x34, 0x56, 0x78,
    ],
    preoutputs: [
        0x7f2a_cdb7_adfb_701f,
        0x8d20_83b3_c32b_43f1,
        0x962b_3dca_bf67_9378,
        0xdb35_36bf_c25b_ed48,
        0x3008_e6bc_b395_a156,
    ],
};

pub const COLUMNS: [Column; 4] = [COLUMN_1, COLUMN_2, COLUMN_3, COLUMN_4];

// A column with authentication, and the rows that only such columns have.
#[derive(Clone, Copy)]
pub struct Authenticated {
    pub column: Column,
    pub accumulator: u64,
    pub register: u64,
    pub keystream: [u64; 2],
    pub macstream: [u64; 2],
    pub tags: [u64; 5],
}

pub const AUTHENTICATED_3: Authenticated = Authenticated {
    column: COLUMN_3,
    accumulator: 0x564b_3622,
    register: 0x19bd_90e3,
    keystream: [0x0d2b_1f2e_bc83_da7e, 0x6658_ee31_50f9_ef47],
    // The first is printed without its second c, 1cdb7f1e52da547; the pre-outputs y_65, y_67 and so on have it.
    macstream: [0x1cdb_c7f1_e52d_a547, 0x36fa_2528_28de_82a0],
    tags: [
        0x4ff6_a6c1,
        0x6530_17e4,
        0x7c8d_8707,
        0x522a_b34f,
        0x4b78_21c9,
    ],
};

pub const AUTHENTICATED_4: Authenticated = Authenticated {
    column: COLUMN_4,
    accumulator: 0x7f2a_cdb7,
    register: 0xadfb_701f,
    keystream: [0xa49d_971c_976b_f596, 0xb45f_93e2_42de_d8c1],
    macstream: [0x3015_919d_6178_7b5c, 0xd767_8db8_40a6_571e],
    tags: [
        0xd2d1_bda8,
        0x24dc_2d89,
        0x8927_5d96,
        0x379d_2899,
        0x9226_b196,
    ],
};

// The first of a message's bits is the word's top bit.
#[derive(Clone, Copy)]
pub struct Message {
    pub size: usize,
    pub bits: u64,
}

// m0 to m4.
pub const MESSAGES: [Message; 5] = [
    Message { size: 0, bits: 0 },
    Message { size: 1, bits: 0 },
    Message {
        size: 1,
        bits: 0x8000_0000_0000_0000,
    },
    Message {
        size: 20,
        bits: 0x1234_0000_0000_0000,
    },
    Message {
        size: 41,
        bits: 0x1234_5678_9e80_0000,
    },
];

// The last 16 bits of column 4's tag of m4, which the text below the table gives.
pub const SHORT_TAG: u64 = 0xb196;

// A tag of so many bits, as the bytes that it stands in.
#[derive(Clone, Copy)]
pub struct Tag {
    pub bits: u32,
    pub size: i64,
    pub bytes: u64,
}

// The last bits of column 4's tag of m0, and zeros up to whole bytes.
pub const CUT_TAGS: [Tag; 4] = [
    Tag {
        bits: 32,
        size: 4,
        bytes: 0xd2d1_bda8,
    },
    Tag {
        bits: 16,
        size: 2,
        bytes: 0xbda8,
    },
    Tag {
        bits: 20,
        size: 3,
        bytes: 0x1b_da80,
    },
    Tag {
        bits: 1,
        size: 1,
        bytes: 0x00,
    },
];
