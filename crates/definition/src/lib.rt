// No code. Document 01 as definitions on trees and bytes, one file of specs/ a heading: the one place that a reader must believe. proofs/ has the
// tables of worked books, computed.
#![tactic(auto)]
