//! What `dcc --help` and `dcc --version` print. The launcher `dcc` reads both texts here, so that it answers without a build.

/// What `dcc --help`, `dcc -h` and `dcc help` print.
pub const HELP: &str = "\
dcc is a Diameter credit-control server (RFC 8506) on prepaid balances.

usage: dcc replay PLAN
       dcc topup PLAN DIR SUB TICKET AMOUNT [MOMENT]
       dcc topup PLAN DIR --from FILE
       dcc topup --at ADDR SUB TICKET AMOUNT
       dcc ledger PLAN DIR SUB
       dcc ledger --at ADDR SUB
       dcc balance PLAN DIR SUB
       dcc balance --at ADDR SUB
       dcc serve PLAN DIR [--listen ADDR] [--gates N] [--rounds N | --stay [--sweep S] [--operator ADDR]] [--every N] [--silent S] [--accept-loss]
       dcc check PLAN [DIR]
       dcc decode
       dcc help [COMMAND]

dcc replay PLAN   reads a script of events from standard input, and prints what each event is answered under the
                  plan of the file PLAN. A path that begins with a hyphen stands behind --
dcc topup         makes one top-up under the plan of the file PLAN, in the store of the subscriber's shard in the
                  folder DIR, and prints done, ceiling, refused or bad, each with status 0. A store that is missing is
                  made, a folder isn't.
                  SUB is a type and data, as 0:491700000001: type 0 a telephone number, 1 an IMSI, 2 a SIP URI, 3 an NAI,
                  4 a private name
                  TICKET is the top-up's number, 0 to 2^64 - 1. done and ceiling use it: a second top-up with it adds nothing
                  AMOUNT is in minor units, 1 to 10^18, without a point; any other number is bad
                  MOMENT is in seconds since 1970, the clock's if it is missing
                  --from makes the top-ups of FILE, or of standard input if FILE is -: a line for each, SUB TICKET AMOUNT
                  [MOMENT]. It opens each store once, and prints SUB, TICKET and the word of each top-up
                  --at asks the server that runs at ADDR in place of a folder: ADDR is that of its --operator, an address of
                  127.0.0.0/8 and a port. The top-up is at the moment of the server's clock, and no MOMENT is given
dcc ledger        prints the ledger of the subscriber SUB from the store of its shard in the folder DIR. Without such a
                  store or folder the account is unknown, and nothing is made.
                  SUB is a type and data, as 0:491700000001: type 0 a telephone number, 1 an IMSI, 2 a SIP URI, 3 an NAI,
                  4 a private name
                  --at asks the server that runs at ADDR in place of a folder: ADDR is that of its --operator, an address of
                  127.0.0.0/8 and a port
dcc balance       prints how the account of the subscriber SUB stands, from the store of its shard in the folder DIR: its
                  funds, the reserved money, the free money and the overrun, in minor units, a line each. Without acts the
                  account is unknown.
                  SUB is a type and data, as 0:491700000001: type 0 a telephone number, 1 an IMSI, 2 a SIP URI, 3 an NAI,
                  4 a private name
                  --at asks the server that runs at ADDR in place of a folder: ADDR is that of its --operator, an address of
                  127.0.0.0/8 and a port
dcc serve         serves gateways over TCP from the stores in the folder DIR, and prints its address, and a line for each
                  round. Without --stay it ends after its rounds, and serves one if --rounds is missing; a round ends
                  once each of its gateways has left
                  --listen ADDR    an IPv4 address and a port; default 127.0.0.1:3868
                  --gates N        the gateways of a round, 1 to 16; with --stay those at once, 1 to 256; default 1
                  --rounds N       the rounds, 1 to 1000000, one after another; not with --stay; default 1
                  --every N        after each N messages of a gateway, 0 to 1000000, the server ends the sessions behind
                                   their deadline; 0 is never; default 0
                  --silent S       a gateway that sends nothing for so many seconds, 0 to 86400, is dropped; 0 is never;
                                   default 0, and with --stay 60
                  --stay           gateways come and go in one round that stays. A file DIR/stop ends the server once it
                                   has answered what it has read
                  --sweep S        every S seconds, 0 to 86400, the server ends the sessions behind their deadline; 0 is
                                   never; with --stay alone; default 60
                  --operator ADDR  operators call the server by HTTP at ADDR, an address of 127.0.0.0/8 and a port: for
                                   top-ups, balances, ledgers, sweeps, back-ups, metrics, its state and its end; with
                                   --stay alone
                  --accept-loss    stores that have fewer acts than they had are opened all the same
dcc check         judges the plan of the file PLAN and the store of each of its shards in the folder DIR, and prints
                  what is good. It changes and makes nothing, explains each failure, warns of each key of the plan that
                  no rule reads, and ends as dcc serve would before it listens
dcc decode        reads what a replay printed, a script, or messages in hex from standard input, and prints each
                  message as a tree of names and values, and each line without one as it is
dcc help          prints this text, as dcc --help and dcc -h do; dcc help COMMAND prints the part of one command, as
                  dcc COMMAND --help does
dcc --version     prints the version, as dcc -V does

Each command takes --explain, before a -- if there is one: behind the line of a failure, further lines on standard
error say what is wrong and where.

exit status: 0; 1 if memory, input or output failed; 2 at another command line; 3 at a faulty plan; 4 at a faulty
store; 5 at a faulty script or file of top-ups; 6 if a server's answers and accounts disagree, or a part of it ended
without the others. A failure has one line on standard error, and the lines of --explain.
";

/// What `dcc --version` prints.
pub const VERSION: &str = "\
dcc 0.1.0
";
