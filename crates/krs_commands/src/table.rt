/// Gives all commands to a macro, behind its arguments, in groups, and in these a row each: the first word; the words
/// behind it, in the width that help has for them; what an accepted one prints, in at most 48 letters, so that a row of
/// help has 80; and what reads the words behind the first, with memory or without, or the ask of a command that takes
/// no words.
#[macro_export]
macro_rules! commands {
    ($use:ident $(, $arg:tt)*) => {
        $use! {
            $($arg),*;
            contexts {
                "hello" " UID GID [GROUP ..]      "
                    "a new context, the current one: its number" memory contexts::hello;
                "context" " N                     "
                    "makes another context the current one: ok" words contexts::context;
                "moment" " N                      "
                    "the time of the next lines, in seconds: ok" words contexts::moment;
                "thread" "                        "
                    "a context in the current process: its number" alone Op::Thread;
                "fork" "                          "
                    "a context in a new process: its number" alone Op::Fork;
                "exec" "                          "
                    "ends the other contexts of the process: ok" alone Op::Exec;
                "exit" "                          "
                    "ends the current context: ok" alone Op::Exit;
            }
            keys {
                "add" " TYPE DESC DATA RING       "
                    "a key, new or with a new payload: its serial" memory keys::add;
                "newring" " DESC RING             "
                    "a new keyring in a keyring: its serial" memory keyrings::newring;
                "id" " KEY [create]               "
                    "what an id names, or create makes: its serial" words contexts::get_id;
                "join" " [NAME]                   "
                    "another session keyring: its serial" memory contexts::join;
                "update" " KEY DATA               "
                    "another payload for a key: ok" memory keys::update;
                "print" " KEY                     "
                    "the payload of a key" words keys::print;
                "rlist" " KEY                     "
                    "the serials that a keyring links, or a payload" words keys::rlist;
                "rdescribe" " KEY                 "
                    "a key as text: type;uid;gid;perm;description" words keys::rdescribe;
            }
            changes {
                "revoke" " KEY                    "
                    "ends a key for good: ok" words keys::revoke;
                "invalidate" " KEY                "
                    "takes a key out of all keyrings, for good: ok" words keys::invalidate;
                "clear" " RING                    "
                    "takes all links out of a keyring: ok" words keyrings::clear;
                "chown" " KEY UID                 "
                    "another owner of a key: ok" words keys::chown;
                "chgrp" " KEY GID                 "
                    "another group of a key: ok" words keys::chgrp;
                "setperm" " KEY MASK              "
                    "another mask of a key, in hexadecimal: ok" words keys::setperm;
                "timeout" " KEY SECONDS           "
                    "lets a key expire; 0 seconds is never: ok" words keys::timeout;
            }
            links {
                "link" " KEY RING                 "
                    "one more link in a keyring: ok" words keyrings::link;
                "unlink" " KEY RING               "
                    "one link less in a keyring: ok" words keyrings::unlink;
                "move" " KEY FROM TO [excl]       "
                    "moves a link; excl displaces none: ok" words keyrings::move_link;
                "restrict" " RING                 "
                    "closes a keyring to further links for good: ok" memory keyrings::restrict;
                "search" " RING TYPE DESC [RING]  "
                    "a key found from RING on, and linked: its serial" memory keyrings::search_from;
                "request" " TYPE DESC [RING]      "
                    "the same from @t, @p and @s on: its serial" memory keyrings::request;
            }
            queues {
                "open" " CAPACITY                 "
                    "a queue that holds so many records: its number" words queues::open;
                "closeq" " QUEUE                  "
                    "ends a queue and its watches: ok" words queues::closeq;
                "watch" " KEY QUEUE ID            "
                    "watches a key, as ID 0 to 255; off ends it: ok" words queues::watch;
                "filter" " QUEUE ENTRY ..         "
                    "which notes a queue takes in from now on: ok" memory queues::filter;
                "readq" " QUEUE ROOM              "
                    "records of at most so many bytes, in hexadecimal" words queues::readq;
                "leave" "                         "
                    "closes all queues and ends all contexts: ok" alone Op::Leave;
            }
        }
    };
}
