//! The options of the command line: one table, by which words are parsed and the help is written.
use clap::{Arg, ArgAction, Command};
use std::alloc::{AllocError, Global};

/// How often an option may occur, and whether it has a value.
pub(crate) enum OptionKind {
    /// At most once, without a value.
    Flag,
    /// At most once, with a value.
    Once,
    /// At most once, with a number.
    Number,
    /// Any number of times, each time with a value.
    Often,
}

/// An option: its name, its letter, the name of its value, and its lines of the help.
pub(crate) struct OptionSpec {
    pub(crate) name: &'static str,
    pub(crate) letter: Option<char>,
    pub(crate) kind: OptionKind,
    pub(crate) value: &'static str,
    pub(crate) help: &'static [&'static str],
}

/// A group of options, and its heading in the help.
pub(crate) struct OptionGroup {
    pub(crate) title: &'static str,
    pub(crate) options: &'static [OptionSpec],
}

static SERVED: OptionGroup = OptionGroup {
    title: "What is served (the records of all sources together):",
    options: &[
        OptionSpec {
            name: "vrps",
            letter: None,
            kind: OptionKind::Often,
            value: "FILE",
            help: &[
                "FILE is the output of a validator: the JSON of rpki-client, Routinator,",
                "FORT, StayRTR or rtrdump, or a payload list. It may also be rpki-client's",
                "rpki.ccr (a draft: draft-ietf-sidrops-rpki-ccr). That needs --max-age. The",
                "option may be given several times.",
            ],
        },
        OptionSpec {
            name: "points",
            letter: None,
            kind: OptionKind::Often,
            value: "DIR",
            help: &[
                "DIR is a publication point. It has manifest.der, the published objects in",
                "objects/, and their contents in contents/. The option may be given several",
                "times.",
            ],
        },
        OptionSpec {
            name: "slurm",
            letter: None,
            kind: OptionKind::Often,
            value: "FILE",
            help: &[
                "FILE has local exceptions (SLURM, RFC 8416). They are applied to all",
                "records. The option may be given several times: the files are applied",
                "together, and all are refused if two of them overlap (RFC 8416 section",
                "4.2).",
            ],
        },
        OptionSpec {
            name: "check",
            letter: None,
            kind: OptionKind::Number,
            value: "SECONDS",
            help: &[
                "The interval at which the files are polled. A file that has changed is",
                "read again, and expired records are dropped. Routers are notified no more",
                "often. RFC 8210 section 8.2: a cache MUST NOT notify more than once a",
                "minute, so less than 60 breaks it. The number is from 1 to 4294967295; the",
                "default is 60.",
            ],
        },
        OptionSpec {
            name: "max-age",
            letter: None,
            kind: OptionKind::Number,
            value: "SECONDS",
            help: &[
                "A file of --vrps whose data are older is reported as old. Its data are",
                "still served. If a file does not say when it was made, or says a time more",
                "than an hour ahead, its modification time counts. DIR of --points and the",
                "files of --slurm have no age. The records of an rpki.ccr have no expiry of",
                "their own: they are dropped at that age. The number is from 1 to",
                "4294967295; by default no file is old.",
            ],
        },
        OptionSpec {
            name: "max-size",
            letter: None,
            kind: OptionKind::Number,
            value: "BYTES",
            help: &[
                "A larger file of --vrps or --slurm is refused, and so is one that is not a",
                "regular file. The number is from 1 to 1099511627776; the default is",
                "1073741824.",
            ],
        },
        OptionSpec {
            name: "max-shrink",
            letter: None,
            kind: OptionKind::Number,
            value: "PERCENT",
            help: &[
                "A changed file of --vrps that had 1000 VRPs or more is refused if it has",
                "lost more than PERCENT of them. Its previous data are served. Expired VRPs",
                "do not count. PERCENT is from 1 to 99, or none for no such guard; the",
                "default is 90. A restart loads whatever there is.",
            ],
        },
        OptionSpec {
            name: "shrink-hold",
            letter: None,
            kind: OptionKind::Number,
            value: "SECONDS",
            help: &[
                "How long a file is refused that is too short by --max-shrink. Then it is",
                "loaded, with a warning. The number is from 60 to 31536000; the default is",
                "86400. The option needs a --max-shrink other than none.",
            ],
        },
        OptionSpec {
            name: "leave-out-length-0",
            letter: None,
            kind: OptionKind::Flag,
            value: "",
            help: &[
                "Records for 0.0.0.0/0 and ::/0 are left out, as in StayRTR: FRR 8.4 and",
                "other users of librtr abort at them. The log says how many.",
            ],
        },
        OptionSpec {
            name: "stop-when-old",
            letter: None,
            kind: OptionKind::Flag,
            value: "",
            help: &[
                "The daemon exits as soon as a file is older than --max-age allows, so that",
                "the records expire on the routers. It needs --max-age.",
            ],
        },
    ],
};

static ROUTERS: OptionGroup = OptionGroup {
    title: "Where routers connect:",
    options: &[
        OptionSpec {
            name: "listen",
            letter: None,
            kind: OptionKind::Often,
            value: "ADDRESS:PORT",
            help: &[
                "The daemon listens at this address, for example 192.0.2.1:3323 or",
                "[::1]:3323. The option may be given several times; the default is",
                "127.0.0.1:3323. Port 0 chooses a free port. [::]:PORT accepts IPv4 too, so",
                "0.0.0.0:PORT beside it is refused as in use.",
            ],
        },
        OptionSpec {
            name: "clients",
            letter: None,
            kind: OptionKind::Number,
            value: "NUMBER",
            help: &[
                "How many routers may be connected at a time. A further connection is",
                "closed at once. The system's limit of descriptors, less 16, or less 80",
                "with --status, may allow fewer. The number is from 1 to 4294967295; the",
                "default is 256.",
            ],
        },
        OptionSpec {
            name: "clients-per-address",
            letter: None,
            kind: OptionKind::Number,
            value: "NUMBER",
            help: &[
                "How many routers may be connected from one address at a time. A further",
                "connection is closed at once. The number is from 1 to 4294967295; by",
                "default there is no such limit. A router that sends no query within 60",
                "seconds is disconnected.",
            ],
        },
        OptionSpec {
            name: "stall",
            letter: None,
            kind: OptionKind::Number,
            value: "SECONDS",
            help: &[
                "A router that has accepted no byte for this long, although data are",
                "pending for it, is disconnected. So is one whose host has vanished: it has",
                "acknowledged no byte of a notify for this long. The number is from 1 to",
                "4294967295; the default is 120.",
            ],
        },
        OptionSpec {
            name: "slow",
            letter: None,
            kind: OptionKind::Number,
            value: "SECONDS",
            help: &[
                "A router that has not accepted the whole answer to a query by this long",
                "after the query is disconnected. Each query has its own time. The number",
                "is from 60 to 86400; the default is 3600.",
            ],
        },
    ],
};

static NAMES: OptionGroup = OptionGroup {
    title: "Session IDs, serials and versions:",
    options: &[
        OptionSpec {
            name: "session",
            letter: None,
            kind: OptionKind::Number,
            value: "NUMBER",
            help: &[
                "The session ID in version 1 of the protocol, from 0 to 65535. By default",
                "it is made of /etc/machine-id, the host name, the addresses and the",
                "sources, so a restart keeps it. If there is no machine id, it is random at",
                "each start. If several caches share one address, give each its own session",
                "ID.",
            ],
        },
        OptionSpec {
            name: "session0",
            letter: None,
            kind: OptionKind::Number,
            value: "NUMBER",
            help: &[
                "The session ID in version 0, from 0 to 65535. By default it is made of the",
                "time of the start. It changes every second, and repeats after 18 hours.",
            ],
        },
        OptionSpec {
            name: "start",
            letter: None,
            kind: OptionKind::Number,
            value: "NUMBER",
            help: &[
                "The serial of the first version, from 0 to 4294967295. By default it is",
                "the time of the start in seconds since 1970. So serials continue to rise",
                "after a restart, and routers keep their data.",
            ],
        },
        OptionSpec {
            name: "keep",
            letter: None,
            kind: OptionKind::Number,
            value: "NUMBER",
            help: &[
                "How many earlier versions are kept. A router that has one of them is sent",
                "only the changes. The number is from 1 to 65536; the default is 16.",
            ],
        },
    ],
};

static SENT: OptionGroup = OptionGroup {
    title: "What is sent to routers (RFC 8210 section 6):",
    options: &[
        OptionSpec {
            name: "refresh",
            letter: None,
            kind: OptionKind::Number,
            value: "SECONDS",
            help: &[
                "How long a router waits after a commit before its next query. The number",
                "is from 1 to 86400; the default is 3600.",
            ],
        },
        OptionSpec {
            name: "retry",
            letter: None,
            kind: OptionKind::Number,
            value: "SECONDS",
            help: &[
                "How long a router waits after a failed query. The number is from 1 to",
                "7200; the default is 600.",
            ],
        },
        OptionSpec {
            name: "expire",
            letter: None,
            kind: OptionKind::Number,
            value: "SECONDS",
            help: &[
                "How long a router keeps its data without an update. The number is from 600",
                "to 172800, and more than both others; the default is 7200.",
            ],
        },
    ],
};

static REPORTED: OptionGroup = OptionGroup {
    title: "What is reported:",
    options: &[
        OptionSpec {
            name: "status",
            letter: None,
            kind: OptionKind::Once,
            value: "ADDRESS:PORT",
            help: &[
                "Serve status pages at this address, over HTTP: / for people, /metrics for",
                "Prometheus, /health, /vrps.json as rpki-client writes it, /list.json as a",
                "payload list, /vrps.csv, and /validity?asn=64496&prefix=192.0.2.0/24 for",
                "the state of a route. The pages change nothing. Use a management network.",
                "Without this option there are none.",
            ],
        },
        OptionSpec {
            name: "status-name",
            letter: None,
            kind: OptionKind::Once,
            value: "NAME",
            help: &[
                "The name by which browsers and other clients call the status pages, as",
                "cache.example.net. A request by another name is refused, so that no web",
                "page can read them by a name of its own. Addresses and localhost always",
                "work. It needs --status.",
            ],
        },
        OptionSpec {
            name: "log",
            letter: None,
            kind: OptionKind::Once,
            value: "FORM",
            help: &[
                "The form of the log on standard error: text, json, or systemd, which is",
                "text with the priority of each line before it, as <4>, for the journal.",
                "The default is text.",
            ],
        },
        OptionSpec {
            name: "log-level",
            letter: None,
            kind: OptionKind::Once,
            value: "LEVEL",
            help: &[
                "Which events are logged: error, warning, notice or info, each with those",
                "before it. The default is info, which is all. At most 1000 lines about",
                "routers are written within 10 seconds; the log says how many it lacks.",
            ],
        },
    ],
};

static TESTS: OptionGroup = OptionGroup {
    title: "For tests:",
    options: &[OptionSpec {
        name: "once",
        letter: None,
        kind: OptionKind::Flag,
        value: "",
        help: &["The daemon exits when the first router has disconnected."],
    }],
};

static OTHERS: OptionGroup = OptionGroup {
    title: "Others:",
    options: &[
        OptionSpec {
            name: "check-config",
            letter: None,
            kind: OptionKind::Flag,
            value: "",
            help: &[
                "Read and judge all files, say what would be served, and exit. The status",
                "is 0 if the daemon could start so, 1 if the content of a file is refused,",
                "and 3 if a file cannot be read. No address is opened.",
            ],
        },
        OptionSpec {
            name: "help",
            letter: Some('h'),
            kind: OptionKind::Flag,
            value: "",
            help: &["Print this text."],
        },
        OptionSpec {
            name: "version",
            letter: Some('V'),
            kind: OptionKind::Flag,
            value: "",
            help: &["Print the name and the version of the program."],
        },
    ],
};

fn served() -> &'static OptionGroup {
    &SERVED
}

fn routers() -> &'static OptionGroup {
    &ROUTERS
}

fn names() -> &'static OptionGroup {
    &NAMES
}

fn sent() -> &'static OptionGroup {
    &SENT
}

fn reported() -> &'static OptionGroup {
    &REPORTED
}

fn tests() -> &'static OptionGroup {
    &TESTS
}

fn others() -> &'static OptionGroup {
    &OTHERS
}

/// The groups of the options, in the order of the help. Each has a static and a function of its own, so that no proof goes over all of them.
pub(crate) fn groups() -> [&'static OptionGroup; 7] {
    [
        served(),
        routers(),
        names(),
        sent(),
        reported(),
        tests(),
        others(),
    ]
}

fn argument<'a>(alloc: Global, option: &OptionSpec) -> Arg<'a> {
    let mut made = Arg::new(alloc, option.name).long(option.name);
    if let Some(letter) = option.letter {
        made = made.short(letter);
    }
    match option.kind {
        OptionKind::Flag => made.action(ArgAction::SetTrue),
        OptionKind::Once => made.action(ArgAction::Set).value_name(option.value),
        OptionKind::Number => made
            .action(ArgAction::Set)
            .value_name(option.value)
            .allow_negative_numbers(true),
        OptionKind::Often => made.action(ArgAction::Append).value_name(option.value),
    }
}

fn with_options<'a>(
    alloc: Global,
    command: Command<'a>,
    options: &[OptionSpec],
) -> Result<Command<'a>, AllocError> {
    let mut made = command;
    for option in options {
        made = made.arg(argument(alloc, option))?;
    }
    Ok(made)
}

/// The command line of the daemon, for the parser.
pub(crate) fn command_line<'a>(alloc: Global) -> Result<Command<'a>, AllocError> {
    let mut made = Command::new(alloc, "rpkirtrd")
        .no_binary_name(true)
        .disable_help_flag(true)
        .disable_version_flag(true);
    for group in groups() {
        made = with_options(alloc, made, group.options)?;
    }
    Ok(made)
}
