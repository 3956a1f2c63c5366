//! The form of each command: "Scripts" of docs/FORMATS.md, row by row.
use script_grammar::{
    LAST_SESSION, LAST_TYPE, LEAST_CREDITS, LEAST_RING, LEAST_ROUNDS, MOST_CREDITS, MOST_RING,
    MOST_ROOM, MOST_ROUNDS, MOST_TICK,
};

/// One word of a command after its first.
#[derive(Clone, Copy)]
pub enum Field {
    /// The number of a node.
    Node,
    /// A number in a range, after its key.
    Number {
        key: &'static str,
        low: u32,
        high: u32,
    },
    /// The bytes of a call.
    Ask,
}

/// What a command looks like.
#[derive(Clone, Copy)]
pub struct Form {
    pub name: &'static str,
    pub usage: &'static str,
    pub fields: &'static [Field],
}

const RING: Field = Field::Number {
    key: "ring=",
    low: LEAST_RING,
    high: MOST_RING,
};

const CREDITS: Field = Field::Number {
    key: "credits=",
    low: LEAST_CREDITS,
    high: MOST_CREDITS,
};

const SESSION: Field = Field::Number {
    key: "",
    low: 0,
    high: LAST_SESSION,
};

const TYPE: Field = Field::Number {
    key: "",
    low: 0,
    high: LAST_TYPE,
};

const ROOM: Field = Field::Number {
    key: "room=",
    low: 0,
    high: MOST_ROOM,
};

const TICK: Field = Field::Number {
    key: "",
    low: 0,
    high: MOST_TICK,
};

const ROUNDS: Field = Field::Number {
    key: "",
    low: LEAST_ROUNDS,
    high: MOST_ROUNDS,
};

const ANY: Field = Field::Number {
    key: "",
    low: 0,
    high: u32::MAX,
};

/// The commands, in the order of the table.
pub const FORMS: [Form; 14] = [
    Form {
        name: "node",
        usage: "node ring=R",
        fields: &[RING],
    },
    Form {
        name: "pair",
        usage: "pair A B credits=C",
        fields: &[Field::Node, Field::Node, CREDITS],
    },
    Form {
        name: "connect",
        usage: "connect A B credits=C",
        fields: &[Field::Node, Field::Node, CREDITS],
    },
    Form {
        name: "disconnect",
        usage: "disconnect A S",
        fields: &[Field::Node, SESSION],
    },
    Form {
        name: "rate",
        usage: "rate A S B",
        fields: &[Field::Node, SESSION, ANY],
    },
    Form {
        name: "call",
        usage: "call A S Y ASK room=R",
        fields: &[Field::Node, SESSION, TYPE, Field::Ask, ROOM],
    },
    Form {
        name: "poll",
        usage: "poll A",
        fields: &[Field::Node],
    },
    Form {
        name: "arrive",
        usage: "arrive I",
        fields: &[ANY],
    },
    Form {
        name: "lose",
        usage: "lose I",
        fields: &[ANY],
    },
    Form {
        name: "repeat",
        usage: "repeat I",
        fields: &[ANY],
    },
    Form {
        name: "tick",
        usage: "tick T",
        fields: &[TICK],
    },
    Form {
        name: "work",
        usage: "work A J",
        fields: &[Field::Node, ANY],
    },
    Form {
        name: "settle",
        usage: "settle K",
        fields: &[ROUNDS],
    },
    Form {
        name: "restart",
        usage: "restart A",
        fields: &[Field::Node],
    },
];

/// The form of the command with this name, if there is one.
pub fn form_of(name: &[u8]) -> Option<Form> {
    FORMS
        .iter()
        .copied()
        .find(|form| form.name.as_bytes() == name)
}
