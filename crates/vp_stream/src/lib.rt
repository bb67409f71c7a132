//! Decodes IVF files: single packets of a growing file, or a whole file.
#![tactic(auto)]

mod answer;
mod cursor;
mod decoding;
mod fault;
mod form;
mod laws;
mod outcomes;
mod packet_reader;
mod picture_writer;
mod report;
mod seeking;
mod shown_planes;
mod stream;
mod surveying;

pub use answer::Answer;
pub use cursor::Cursor;
pub use decoding::decode_all;
pub use fault::{DecodeFault, SurveyFault};
pub use form::Form;
pub use laws::{
    answers_come_from_the_last_key_packet, cursor_outlives_a_feed, growing_keeps_answers,
    only_key_packets_give_a_size, packets_in_order_cost_one_each,
    shown_pictures_have_the_key_packets_size,
};
pub use outcomes::{OutcomeList, Survey};
pub use report::{FaultList, Report};
pub use stream::Stream;
pub use surveying::survey;
