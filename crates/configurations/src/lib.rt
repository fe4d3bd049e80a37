//! The configuration files of the server and of the subscriber: the grammar of their lines, and the settings that come
//! of them, or the number of the first bad line.
//!
//! **Model.** A configuration is a text of lines. `serving_of` and `subscribing_of` (`specs/Configurations`) give what
//! it says, or the number of the first line outside; where a line is missing that is the one behind the last. What the
//! program holds is a `ServeConfiguration` or a `SubscribeConfiguration`, and `specs/Kept` says what it stands for.
//!
//! **Flow.** `read_serve` (`server_config.rt`) takes line by line with `take_lines` of `scripts`. The first word gives
//! the kind of a line: `listen`, `sessions`, `feed` and `turns` are read here, and any other must be one of a script's
//! head (`zone`, `link`, `reverse`, `timers`). At the end it asks that `listen` and `sessions` were there.
//! `read_subscribe` (`subscriber_config.rt`) does the same for `server`, `question`, `messages` and `turns`. `words.rt`
//! has what both share, and `limits.rt` the greatest numbers.
//!
//! **Begin** with `specs/Configurations`, and the worked rows below: each shows a text and what becomes of it.
//!
//! **Change.** How a draft is kept is private to each file. A further line of a server changes this crate and
//! `commands`; docs/ARCHITECTURE.md lists all places. Nothing is opened here: an address is a word, which the outside
//! will understand or not.
//!
//! **Stand on it**: `commands` (both commands), `subscriber` (what to ask).
#![tactic(auto)]

pub mod limits;
mod server_config;
mod subscriber_config;
mod words;

ghost use Rattle.std.specs.Prelude.{◌≡◌, [], ◌∷◌, Err, Ok, codes, false, replicate, true};
ghost use Rattle.configurations.specs.Configurations.{may_ask, no_subscribing, serving_of, subscribing_of};
ghost use Rattle.configurations.specs.Worked.{all_records, asking, served, serving, soa, subscribing, text};
ghost use Rattle.configurations.specs.Configurations.{max_accepted, max_turns};

pub use server_config::{FedLink, ReadServe, ServeConfiguration, read_serve};
pub use subscriber_config::{ReadSubscribe, SubscribeConfiguration, read_subscribe};

/// Examples of configurations of a server: all kinds of lines, what is missing, and lines that may not stand there.
pub fn worked_servers()
    ensures all_lines { serving_of served ≡ Ok serving }
    ensures no_line { serving_of [] ≡ Err 1 }
    ensures empty_lines { serving_of (text ([] ∷ [] ∷ [])) ≡ Err 3 }
    ensures without_listen { serving_of (text (codes "sessions 1" ∷ [])) ≡ Err 2 }
    ensures without_sessions { serving_of (text (codes "listen here" ∷ [])) ≡ Err 2 }
    ensures listens_twice { serving_of (text (codes "listen here" ∷ codes "listen here" ∷ codes "sessions 1" ∷ [])) ≡ Err 2 }
    ensures no_session { serving_of (text (codes "sessions 0" ∷ [])) ≡ Err 1 }
    ensures leading_zero { serving_of (text (codes "sessions 01" ∷ [])) ≡ Err 1 }
    ensures many_sessions { serving_of (text (codes "sessions 1000001" ∷ [])) ≡ Err 1 }
    ensures sessions_twice { serving_of (text (codes "sessions 1" ∷ codes "sessions 1" ∷ [])) ≡ Err 2 }
    ensures feed_first { serving_of (text (codes "feed lan here" ∷ codes "link lan lan.example.com." ∷ [])) ≡ Err 1 }
    ensures feeds_twice { serving_of (text (codes "link lan lan.example.com." ∷ codes "feed lan here" ∷ codes "feed lan here" ∷ [])) ≡ Err 3 }
    ensures two_words { serving_of (text (codes "listen here there" ∷ [])) ≡ Err 1 }
    ensures no_word { serving_of (text (codes "listen " ∷ [])) ≡ Err 1 }
    ensures many_turns { serving_of (text (codes "turns 1099511627777" ∷ [])) ≡ Err 1 }
    ensures turns_twice { serving_of (text (codes "turns 0" ∷ codes "turns 1099511627776" ∷ [])) ≡ Err 2 }
    ensures reverse_first { serving_of (text (codes "reverse lan 2.0.192.in-addr.arpa." ∷ codes "link lan lan.example.com." ∷ [])) ≡ Err 1 }
    ensures reverse_elsewhere { serving_of (text (codes "link lan lan.example.com." ∷ codes "reverse lan example.org." ∷ [])) ≡ Err 2 }
    ensures event { serving_of (text (codes "zone example.com. 1 open" ∷ codes "point" ∷ [])) ≡ Err 2 }
    ensures client { serving_of (text (codes "client c" ∷ [])) ≡ Err 1 }
    ensures short_keepalive { serving_of (text (codes "timers 0 9999" ∷ [])) ≡ Err 1 }
    ensures no_ttl { serving_of (text (codes "link lan lan.example.com. 0" ∷ [])) ≡ Err 1 }
    ensures long_ttl { serving_of (text (codes "link lan lan.example.com. 2147483648" ∷ [])) ≡ Err 1 }
    ensures same_home { serving_of (text (codes "zone example.com. 1 open" ∷ codes "zone EXAMPLE.com. 2 shut" ∷ [])) ≡ Err 2 }
{}

/// Examples of configurations of a subscriber.
pub fn worked_subscribers()
    ensures all_lines { subscribing_of asking ≡ Ok subscribing }
    ensures no_line { subscribing_of [] ≡ Err 1 }
    ensures without_server { subscribing_of (text (codes "question example.com. 6 1" ∷ [])) ≡ Err 2 }
    ensures without_question { subscribing_of (text (codes "server here" ∷ [])) ≡ Err 2 }
    ensures same_question { subscribing_of (text (codes "question example.com. 6 1" ∷ codes "question EXAMPLE.com. 6 1" ∷ [])) ≡ Err 2 }
    ensures messages_twice { subscribing_of (text (codes "messages 1" ∷ codes "messages 1" ∷ [])) ≡ Err 2 }
    ensures many_messages { subscribing_of (text (codes "messages 18446744073709551616" ∷ [])) ≡ Err 1 }
    ensures other_kind { subscribing_of (text (codes "question example.com. 65536 1" ∷ [])) ≡ Err 1 }
    ensures head { subscribing_of (text (codes "zone example.com. 1 open" ∷ [])) ≡ Err 1 }
    ensures last_question { may_ask (record no_subscribing { questions = replicate 1023 soa }) all_records ≡ true }
    ensures many_questions { may_ask (record no_subscribing { questions = replicate 1024 soa }) all_records ≡ false }
{}

/// The limits of configurations: accepted sessions, and turns of each loop.
pub fn limit_rows()
    ensures accepted { max_accepted ≡ 1000000 }
    ensures turns { max_turns ≡ 1099511627776 }
{}
