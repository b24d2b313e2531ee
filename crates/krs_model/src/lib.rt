//! What a key store is, and what each ask does to it: the definitions that every contract above cites, in `specs/`.
//! The functions here have no body to speak of: their contracts are laws of the definitions, in the subject's words.
#![tactic(auto)]

mod belonging;
mod confidentiality;
mod laws;
mod secrets;

pub use belonging::{
    contexts_are_their_clients, nothing_is_left_of_a_client, readers_have_named_themselves,
};
pub use confidentiality::{
    a_uid_begins_without_keys, keys_made_within_are_not_given_away, new_keys_are_its_users_alone,
    no_user_reads_anothers_keys, nothing_flows_between_users, only_its_user_gives_a_key_away,
    others_have_no_right, others_neither_change_nor_drop_a_key,
};
pub use laws::{
    a_closed_choice_is_the_held_keys, a_read_takes_the_longest_front, a_reply_leads_to_one_state,
    a_sweep_is_one_state, a_sweep_sweeps, a_swept_state_stays, an_empty_store_is_sound,
    cycles_are_reach, each_ask_has_a_step, each_step_keeps_a_store_sound, histories_end_sound,
    histories_move_queues, joins_take_the_least_serial, look_ups_find_usable_keys,
    possession_comes_by_links, queues_give_their_streams, records_go_out_in_order,
    refusals_change_the_clock_alone, requests_search_in_turn, revoked_keys_stay_unread,
    revokes_and_reads_name_a_key, rights_come_from_one_byte, searches_go_by_levels,
};
pub use secrets::{
    asks_hide_payloads, clients_learn_by_reads_alone, hidden_payloads_flow_nowhere,
    histories_hide_payloads, keys_are_read_by_right, no_payload_is_looked_at,
    other_histories_are_asked_alike, payloads_of_any_keys_may_be_hidden,
    payloads_of_gone_keys_are_told_to_nobody, refusals_tell_no_payload, steps_hide_payloads,
    unread_payloads_stay_secret,
};
