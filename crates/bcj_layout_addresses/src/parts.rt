use crate::addresses::Addresses;
use bcj_layout_members::Members;
use bcj_layout_places::Places;
use bcj_layout_resolution::Resolver;
use bcj_layout_rows::{ArrayRows, Selectors};

/// What the words of an image are made from.
#[derive(Clone, Copy)]
pub struct Parts<'a> {
    pub resolver: &'a Resolver,
    pub members: &'a Members<'a>,
    pub selectors: &'a Selectors<'a>,
    pub arrays: &'a ArrayRows<'a>,
    pub places: &'a Places,
    pub addresses: &'a Addresses,
    pub main: &'a str,
}
