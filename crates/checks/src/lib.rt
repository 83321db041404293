#![tactic(auto)]

// The worked examples of every layer, its refusals and its texts, run on the compiled code, and frames compared with a full
// repainting.

#[cfg(test)]
mod chain_kinds;
#[cfg(test)]
mod making;
#[cfg(test)]
mod panels;
#[cfg(test)]
mod pixels;
#[cfg(test)]
mod refusals;
#[cfg(test)]
mod regions;
#[cfg(test)]
mod scripts;
#[cfg(test)]
mod surfaces;
