ghost use Rattle.krs_watch.specs.Laws.{NotesReachTheirWatchers, PostsReachTheirQueues, ReadsTheLongestFront};

/// A law of notes: each goes to the watches of its key, where the queue's filter passes it.
/// core-api/watch_queue.rst, "Watch Subscription API" and "Event Filtering".
pub fn notes_reach_their_watchers()
    ensures { NotesReachTheirWatchers }
{}

/// A law of posts: each changes the queue that it is for, and no other. core-api/watch_queue.rst,
/// "Notification Posting API".
pub fn posts_reach_their_queues()
    ensures { PostsReachTheirQueues }
{}

/// A law of reads: what is read is the longest front that fits the room. Profile, whole records.
pub fn reads_take_the_longest_front()
    ensures { ReadsTheLongestFront }
{}
