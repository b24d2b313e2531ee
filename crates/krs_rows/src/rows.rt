//! Rows, by subject: specs/Rows has each of them.
ghost use Rattle.krs_rows.specs.Rows.Keys.{alpha, longest_texts, logon_keys, one_class_byte, timeouts, revoked_keys};
ghost use Rattle.krs_rows.specs.Rows.Keys.{timeouts_owners_masks, revoked_before_expired, owners};
ghost use Rattle.krs_rows.specs.Rows.Keys.{reading_by_possession};
ghost use Rattle.krs_rows.specs.Rows.Keys.{adding_over};
ghost use Rattle.krs_rows.specs.Rows.Keyrings.{cycles, nesting, displacement, keyring_refusals, revoked_keyring};
ghost use Rattle.krs_rows.specs.Rows.Keyrings.{order_of_a_link, order_of_an_unlink, closed, moves, order_of_a_move};
ghost use Rattle.krs_rows.specs.Rows.Contexts.{contexts_of_processes, sessions_by_name, joined_as_others};
ghost use Rattle.krs_rows.specs.Rows.Contexts.{contexts_at_most};
ghost use Rattle.krs_rows.specs.Rows.Contexts.{callers, others_contexts, others_stay, last_link, last_context};
ghost use Rattle.krs_rows.specs.Rows.Contexts.{last_of_a_process, leaving, invalidated, made_and_refused};
ghost use Rattle.krs_rows.specs.Rows.Searches.{nearest_match, search_depth, requests_in_turn, faults_of_a_search};
ghost use Rattle.krs_rows.specs.Rows.Searches.{keyrings_that_are_not_entered, possession, found_and_linked};
ghost use Rattle.krs_rows.specs.Rows.Records.{removals, watch_ids, loss, loss_in_one_read, invalidation, filters};
ghost use Rattle.krs_rows.specs.Rows.Records.{keyring_notes, notes_of_each_ask, revocation_notes, removals_by_key};
ghost use Rattle.krs_rows.specs.Rows.Records.{queues_at_most};
ghost use Rattle.krs_rows.specs.Rows.Numbers.{last_serials, one_serial_left};
ghost use Rattle.krs_rows.specs.Rows.Traces.{traces_from_1, traces_from_41, traces_from_81, traces_from_121};
ghost use Rattle.krs_rows.specs.Rows.Traces.{traces_from_161};
ghost use Rattle.krs_rows.specs.Words.{AreAllDue, AreDue, AreDueFrom};

/// What ADD, UPDATE, REVOKE, SETPERM, CHOWN, SET_TIMEOUT, READ and DESCRIBE answer.
pub fn rows_of_keys()
    ensures alpha { AreDue alpha }
    ensures longest_texts { AreDue longest_texts }
    ensures logon_keys { AreDue logon_keys }
    ensures one_class_byte { AreDue one_class_byte }
    ensures timeouts { AreDue timeouts }
    ensures revoked_keys { AreDue revoked_keys }
    ensures timeouts_owners_masks { AreDue timeouts_owners_masks }
    ensures revoked_before_expired { AreDue revoked_before_expired }
    ensures owners { AreDue owners }
    ensures reading_by_possession { AreDue reading_by_possession }
    ensures adding_over { AreDue adding_over }
{}

/// What LINK, UNLINK, MOVE, CLEAR and RESTRICT_KEYRING answer.
pub fn rows_of_keyrings()
    ensures cycles { AreDue cycles }
    ensures nesting { AreDue nesting }
    ensures displacement { AreDue displacement }
    ensures keyring_refusals { AreDue keyring_refusals }
    ensures revoked_keyring { AreDue revoked_keyring }
    ensures order_of_a_link { AreDue order_of_a_link }
    ensures order_of_an_unlink { AreDue order_of_an_unlink }
    ensures closed { AreDue closed }
    ensures moves { AreDue moves }
    ensures order_of_a_move { AreDue order_of_a_move }
{}

/// What HELLO, THREAD, FORK, EXEC, EXIT, LEAVE, JOIN, GET_ID and INVALIDATE answer.
pub fn rows_of_contexts()
    ensures contexts_of_processes { AreDue contexts_of_processes }
    ensures sessions_by_name { AreDue sessions_by_name }
    ensures joined_as_others { AreDue joined_as_others }
    ensures contexts_at_most { AreDue contexts_at_most }
    ensures callers { AreDue callers }
    ensures others_contexts { AreDue others_contexts }
    ensures others_stay { AreDue others_stay }
    ensures last_link { AreDue last_link }
    ensures last_context { AreDue last_context }
    ensures last_of_a_process { AreDue last_of_a_process }
    ensures leaving { AreDue leaving }
    ensures invalidated { AreDue invalidated }
    ensures made_and_refused { AreDue made_and_refused }
{}

/// What SEARCH and REQUEST answer, and who possesses what.
pub fn rows_of_searches()
    ensures nearest_match { AreDue nearest_match }
    ensures search_depth { AreDue search_depth }
    ensures requests_in_turn { AreDue requests_in_turn }
    ensures faults_of_a_search { AreDue faults_of_a_search }
    ensures keyrings_that_are_not_entered { AreDue keyrings_that_are_not_entered }
    ensures possession { AreDue possession }
    ensures found_and_linked { AreDue found_and_linked }
{}

/// What WATCH, OPEN_QUEUE, SET_FILTER, READ_QUEUE and CLOSE_QUEUE answer, and what is told.
pub fn rows_of_records()
    ensures removals { AreDue removals }
    ensures watch_ids { AreDue watch_ids }
    ensures loss { AreDue loss }
    ensures loss_in_one_read { AreDue loss_in_one_read }
    ensures invalidation { AreDue invalidation }
    ensures filters { AreDue filters }
    ensures keyring_notes { AreDue keyring_notes }
    ensures notes_of_each_ask { AreDue notes_of_each_ask }
    ensures revocation_notes { AreDue revocation_notes }
    ensures removals_by_key { AreDue removals_by_key }
    ensures queues_at_most { AreDue queues_at_most }
{}

/// What a store answers that has given its last serials.
pub fn rows_of_numbers()
    ensures last_serials { AreDueFrom 2147483646 last_serials }
    ensures one_serial_left { AreDueFrom 2147483645 one_serial_left }
{}

/// What Linux answered.
pub fn rows_of_linux()
    ensures traces_from_1 { AreAllDue traces_from_1 }
    ensures traces_from_41 { AreAllDue traces_from_41 }
    ensures traces_from_81 { AreAllDue traces_from_81 }
    ensures traces_from_121 { AreAllDue traces_from_121 }
    ensures traces_from_161 { AreAllDue traces_from_161 }
{}
