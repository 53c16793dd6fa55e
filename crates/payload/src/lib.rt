// Payload: "Payload(id) returns the payload's part of the store itself, empty when refused; a call beside it with the same checks gives the
// refusal number, or 0." The latter is `payload_check`.
#![tactic(auto)]

mod place;

ghost use Rattle.std.specs.Prelude.{◌≡◌, true, length};
ghost use Rattle.base.specs.Refusals.{first_refusal, number_or_zero};
ghost use Rattle.model.specs.Sound.{sound_for};
ghost use Rattle.model.specs.Reading.{further_payload_refusals, payload, payload_check};
ghost use Rattle.state.specs.View.{view_state};
ghost use Rattle.payload.specs.Part.{PartAt};
ghost use Rattle.payload.specs.Place.{place, place_on_sound};

use crate::place::payload_place;
use refusal::Refusal;
use soundness::sound::sound;
use state::state::State;

// Gives the payload's part of the store. Precondition: the state is sound; `payload` checks that before.
fn payload_on_sound(s: State, store: &[u8], id: u32) -> &[u8]
    requires { sound_for (view_state s) (length store.now) ≡ true }
    ensures { PartAt store.entry (place_on_sound (view_state s) store.now id) result }
{
    match payload_place(s.transfers, store, id) {
        Ok(place) => &store[place.start..place.start + place.count],
        Err(_) => &store[0..0],
    }
}

// Gives the number of the first refusal after 1 that applies, or 0. Precondition: the state is sound; `payload_check` checks that before.
fn payload_check_on_sound(s: State, store: &[u8], id: u32) -> u32
    requires { sound_for (view_state s) (length store.now) ≡ true }
    ensures { result ≡ number_or_zero (first_refusal (further_payload_refusals (view_state s) store.now id)) }
{
    match payload_place(s.transfers, store, id) {
        Ok(_) => 0,
        Err(refusal) => refusal.number(),
    }
}

pub fn payload(s: State, store: &[u8], id: u32) -> &[u8]
    ensures meaning { result.now ≡ payload (view_state s) store.now id }
    ensures part { PartAt store.entry (place (view_state s) store.now id) result }
{
    if !sound(s, store.len()) {
        return &store[0..0];
    }
    payload_on_sound(s, store, id)
}

pub fn payload_check(s: State, store: &[u8], id: u32) -> u32
    ensures { result ≡ payload_check (view_state s) store.now id }
{
    if !sound(s, store.len()) {
        return Refusal::BadState.number();
    }
    payload_check_on_sound(s, store, id)
}
