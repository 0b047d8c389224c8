//! Tests of workers at one core (`fleet_hub`). There is nothing here but tests.
#![tactic(auto)]

#[cfg(test)]
mod drains;
#[cfg(test)]
mod gates;
#[cfg(test)]
mod hands;
#[cfg(test)]
mod made;
#[cfg(test)]
mod said;
#[cfg(test)]
mod shown;
