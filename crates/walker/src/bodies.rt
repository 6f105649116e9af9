// No code: what a pass over the bodies of a book's formats says, for any test of a body.
