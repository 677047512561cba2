//! Tests of the top call and of the driver below it, of what no case can say.
#![tactic(auto)]

#[cfg(test)]
mod drawn;
#[cfg(test)]
mod failing;
#[cfg(test)]
mod held;
#[cfg(test)]
mod ledger;
#[cfg(test)]
mod running;
#[cfg(test)]
mod tests;
