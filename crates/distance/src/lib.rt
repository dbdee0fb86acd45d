// How far the doubler's outputs lie from the exact filter: a claim of definitions, and no code. Meaning: specs/Claims.antt.
#![tactic(auto)]
