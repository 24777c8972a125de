// Facts about the rules (Starred cases): the starred cases (specs/Starred.antt), and the value near 1 (specs/Near.antt); proofs/ proves them.
#![tactic(auto)]
