//! What tda is about, as definitions: cells, groups, spine, tables, what is attainable, what is least.
#![tactic(auto)]
