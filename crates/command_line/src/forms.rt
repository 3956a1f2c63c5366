//! How each subcommand is called, and what it does.

/// How `sim` is called.
pub const SIM: &str = "erpc sim < SCRIPT > REPORT";

/// How `drill` is called.
pub const DRILL: &str = "erpc drill SEED CALLS";

/// How `serve` is called.
pub const SERVE: &str = "erpc serve ADDR --turns T [--workers W] [--relay ADDR] [--life L] \
                         [--timeout MICROSECONDS] [--spin]";

/// How `load` is called.
pub const LOAD: &str = "erpc load ADDR --calls N --type Y --size Z --seed G --turns T \
                        [--bind ADDR] [--frame BYTES] [--life L] [--timeout MICROSECONDS] [--spin]";

/// How `audit` is called.
pub const AUDIT: &str = "erpc audit < REPORT";

/// How each is called, and what it does.
pub const FORMS: [(&str, &str); 5] = [
    (
        SIM,
        "runs the script on standard input and writes the report of what happened",
    ),
    (
        DRILL,
        "runs a script that the number SEED makes, with CALLS calls, and counts what happened",
    ),
    (
        SERVE,
        "answers calls that come to the UDP address ADDR, for T turns, with W threads for \
         background calls, or with those that it asks of the server that --relay names, as life L \
         of its node, and counts what happened",
    ),
    (
        LOAD,
        "asks N calls of the server at ADDR, as life L of its node, and counts how they ended",
    ),
    (
        AUDIT,
        "reads the report on standard input, and says whether it is lawful, or at which line it fails",
    ),
];
