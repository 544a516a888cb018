// No code: what each call means, on one page (specs/Page), that the contracts of the program say the same (specs/Agrees), and what follows (specs/Named, Numbered).
#![tactic(auto)]
