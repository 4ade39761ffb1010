//! Tests of the trees, the places, the faults and the values, made by hand.
mod assertions;
mod builder;
mod copies;
mod faults;
mod kinds;
mod links;
mod names;
mod places;
mod reading;
mod shapes;
mod slots;
mod store;
mod stored_sets;
mod texts;
