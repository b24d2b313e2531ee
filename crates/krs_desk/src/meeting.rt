//! Two seats learn that they share the history.
ghost use Rattle.std.specs.Prelude.{◌<◌, ◌≡◌};
ghost use Rattle.krs_desk.specs.{Seated.{IsResting, opening, SeeOneList}, Sitting.Meets};

use crate::board::Board;
use crate::desk::Desk;
use crate::seat::Seat;
use crate::served_call::Opened;
use crate::steps::{Checks, Looks};
use crate::token::Token;
use crate::word::TURN;
use std::marker::Brand;

// A look at the turn, which tells that the token's opening is the desk's.
fn check<O: Opened>(board: &Board, token: &mut Token)
    requires table { token.old.table_id ≡ board.now.id }
    requires words { 0 < board.now.id.words }
    requires key { O.opening ≡ board.now.key }
    requires rests { IsResting token.old.me }
    ensures table { token.new.table_id ≡ token.old.table_id }
    ensures same { token.new.me ≡ token.old.me }
    ensures opening { opening token.old.me ≡ O.opening }
{
    board.load::<Checks<O>>(token, TURN);
}

impl Desk {
    // A look for both lanes at once.
    fn look(&self, first: &mut Token, second: &mut Token)
        requires table { (first.old.table_id ≡ self.now) × (second.old.table_id ≡ self.now) }
        requires rest { IsResting first.old.me × IsResting second.old.me }
        ensures table { (first.new.table_id ≡ self.now) × (second.new.table_id ≡ self.now) }
        ensures seen { SeeOneList first.old.me second.old.me first.new.me second.new.me }
    {
        let table = &self.table;
        let other = table.split_seat(second);
        table.join_seat(first, other);
        table.load::<Looks>(first, TURN);
        let back = table.split_seat(first);
        table.settle_seat(second, back);
    }

    // The same, and the openings of both are the desk's.
    fn look_as_one(&self, first: &mut Token, second: &mut Token)
        requires table { (first.old.table_id ≡ self.now) × (second.old.table_id ≡ self.now) }
        requires rest { IsResting first.old.me × IsResting second.old.me }
        ensures table { (first.new.table_id ≡ self.now) × (second.new.table_id ≡ self.now) }
        ensures seen { SeeOneList first.old.me second.old.me first.new.me second.new.me }
        ensures openings { opening second.old.me ≡ opening first.old.me }
    {
        check::<Brand>(&self.table, first);
        check::<Brand>(&self.table, second);
        self.look(first, second);
    }

    /// Both seats have then seen one list, which begins with what each had seen.
    pub fn meet(&self, first: &mut Seat, second: &mut Seat)
        requires table { (first.old.table ≡ self.now) × (second.old.table ≡ self.now) }
        ensures table { (first.new.table ≡ self.now) × (second.new.table ≡ self.now) }
        ensures met { Meets first.old second.old first.new second.new }
        ensures rested { (first.new.kept ≡ 0) × (second.new.kept ≡ 0) }
    {
        self.give_back(&mut first.served, &mut first.token);
        self.give_back(&mut second.served, &mut second.token);
        self.look_as_one(&mut first.token, &mut second.token);
    }
}
