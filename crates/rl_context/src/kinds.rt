// The kinds of the records that lowering makes.

// A kind of record: its number, and its row of the schema.
#[derive(Clone, Copy)]
pub struct Kind {
    pub number: u8,
    pub row: u64,
}

impl Kind {
    pub const NULL: Kind = Kind {
        number: 16,
        row: 0x03,
    };

    pub const INTEGER: Kind = Kind {
        number: 17,
        row: 0x04_03,
    };

    pub const STRING: Kind = Kind {
        number: 25,
        row: 0x0c_03,
    };

    pub const BOOL: Kind = Kind {
        number: 26,
        row: 0x05_03,
    };

    pub const IDENTIFIER: Kind = Kind {
        number: 30,
        row: 0x0c_03,
    };

    pub const BINARY: Kind = Kind {
        number: 32,
        row: 0x0d_06_0d_03,
    };

    pub const UNARY: Kind = Kind {
        number: 33,
        row: 0x0d_06_03,
    };

    pub const CALL: Kind = Kind {
        number: 41,
        row: 0x13_12_03,
    };

    pub const ERR_LITERAL: Kind = Kind {
        number: 50,
        row: 0x0d_03,
    };

    pub const DECLARATION: Kind = Kind {
        number: 64,
        row: 0x03_0d_03_0c_03,
    };

    pub const EXPRESSION: Kind = Kind {
        number: 65,
        row: 0x0d_03,
    };

    pub const RETURN: Kind = Kind {
        number: 66,
        row: 0x0d_03,
    };

    pub const CONDITIONAL: Kind = Kind {
        number: 68,
        row: 0x11_10_03,
    };

    pub const BRANCH: Kind = Kind {
        number: 69,
        row: 0x05_16_0e_03,
    };
}
